//! Cells of the rows of tables (GFM 4.10).
//!
//! ```text
//! row ::= [ '|' ] cell *( '|' cell ) [ '|' ]
//! cell ::= *space_or_tab [ text *space_or_tab ]
//! delimiter_cell ::= *space_or_tab [ ':' ] 1*'-' [ ':' ] *space_or_tab
//! ```
//!
//! States read a row as white space, data and bars. What is between two bars is a cell, and so is what
//! is before the first bar or behind the last one, if it is more than white space.
ghost use Rattle.std.specs.Prelude.{◌≡◌, OnOk, IfOk, IfErr, length};
ghost use Rattle.markdown_options.specs.Messages.{IsOutOfMemory};
ghost use Rattle.engine_edits.specs.Edits.{edits_of};
ghost use Rattle.state_edits_blocks.specs.GfmTableRow.{behind_bar, cell_edit, cell_start, delimiter_cell_edit, empty_cell_edit, event_edit, index_edit};
ghost use Rattle.state_edits_blocks.specs.GfmTableRow.{known_after, known_at, outside, row_begun, row_edits, row_kind, text_cell_edit, with_part};

use crate::added::put;
use engine_edits::EditMap;
use markdown_engine::Message;
use markdown_engine::event::{Event, Kind, Name};
use state_edits_data::each::{enter_event, exit_event, is_event, later, place_at};
use state_table::links::TEXT;
use std::alloc::Allocator;

/// The kinds of rows.
#[derive(Clone, Copy)]
enum RowKind {
    /// A row of the head or the body, whose cells hold texts.
    Text,
    /// The row of delimiters.
    Delimiters,
}

/// What is known of the row that is open.
#[derive(Clone, Copy)]
struct Row {
    /// Its kind, if a row is open.
    kind: Option<RowKind>,
    /// Whether something other than white space came in it.
    is_begun: bool,
    /// Whether a bar came in it.
    has_bar: bool,
    /// Where the cell begins: behind a bar, or at the start of the row.
    from: usize,
    /// The first event of the cell that is no white space.
    first: Option<usize>,
    /// The last event of the cell that is no white space.
    last: Option<usize>,
}

/// No row is open.
fn outside() -> Row
    ensures { result ≡ outside }
{
    Row {
        kind: None,
        is_begun: false,
        has_bar: false,
        from: 0,
        first: None,
        last: None,
    }
}

/// A row of a kind, whose events begin at an index.
fn row_begun(kind: RowKind, from: usize) -> Row
    ensures { result ≡ row_begun kind from }
{
    Row {
        kind: Some(kind),
        is_begun: false,
        has_bar: false,
        from,
        first: None,
        last: None,
    }
}

/// A row after a bar, whose next cell begins at an index.
fn behind_bar(row: Row, from: usize) -> Row
    ensures { result ≡ behind_bar row from }
{
    Row {
        kind: row.kind,
        is_begun: true,
        has_bar: true,
        from,
        first: None,
        last: None,
    }
}

/// A row with an event of its cell that is no white space.
fn with_part(row: Row, index: usize) -> Row
    ensures { result ≡ with_part row index }
{
    let first = match row.first {
        None => index,
        Some(first) => first,
    };
    Row {
        is_begun: true,
        first: Some(first),
        last: Some(index),
        ..row
    }
}

/// The kind of row that an event is of.
fn row_kind(event: &Event) -> Option<RowKind>
    ensures { result ≡ row_kind event.now }
{
    if event.name == Name::GfmTableRow {
        return Some(RowKind::Text);
    }
    if event.name == Name::GfmTableDelimiterRow {
        return Some(RowKind::Delimiters);
    }
    None
}

/// What is known after an event that has an index.
fn known_after(row: Row, event: &Event, index: usize) -> Row
    ensures { result ≡ known_after row event.now index }
{
    if let Some(kind) = row_kind(event) {
        return match event.kind {
            Kind::Enter => row_begun(kind, later(1, index)),
            Kind::Exit => outside(),
        };
    }
    if event.name == Name::SpaceOrTab {
        return row;
    }
    if event.name == Name::GfmTableCellDivider {
        return behind_bar(row, later(1, index));
    }
    with_part(row, index)
}

/// What is known after the event at an index, if there is one.
fn known_at(row: Row, events: &[Event], index: usize) -> Row
    ensures { result ≡ known_at events.now row index }
{
    match events.get(index) {
        None => row,
        Some(event) => known_after(row, event, index),
    }
}

/// Where a cell of text begins: white space behind a bar is part of it.
fn cell_start(row: Row, first: usize) -> usize
    ensures { result ≡ cell_start row first }
{
    if row.has_bar { row.from } else { first }
}

/// Adds the edit of a cell of text that ends before an index: its events become one chunk.
fn add_text_cell<A: Allocator + Clone>(
    edits: &mut EditMap<A>,
    alloc: &A,
    events: &[Event],
    start: usize,
    end: usize,
) -> Result<(), Message>
    ensures edits { OnOk result (edits_of edits.new ≡ text_cell_edit events.now start end (edits_of edits.old)) }
    ensures memory { IfErr result IsOutOfMemory }
{
    let from = place_at(events, start);
    let to = place_at(events, end.saturating_sub(1));
    let cell = [
        enter_event(Name::GfmTableCell, from),
        enter_event(Name::GfmTableCellText, from),
        Event::new(Kind::Enter, Name::Data, from, Some(TEXT)),
        exit_event(Name::Data, to),
        exit_event(Name::GfmTableCellText, to),
        exit_event(Name::GfmTableCell, to),
    ];
    put(edits, alloc, start, end.saturating_sub(start), &cell)
}

/// Adds the edit of a cell of text with nothing in it, before a bar.
fn add_empty_cell<A: Allocator + Clone>(
    edits: &mut EditMap<A>,
    alloc: &A,
    events: &[Event],
    index: usize,
) -> Result<(), Message>
    ensures edits { OnOk result (edits_of edits.new ≡ empty_cell_edit events.now index (edits_of edits.old)) }
    ensures memory { IfErr result IsOutOfMemory }
{
    let place = place_at(events, index);
    let cell = [
        enter_event(Name::GfmTableCell, place),
        exit_event(Name::GfmTableCell, place),
    ];
    put(edits, alloc, index, 0, &cell)
}

/// Adds the edits of a cell of delimiters, from its first event to its last one.
fn add_delimiter_cell<A: Allocator + Clone>(
    edits: &mut EditMap<A>,
    alloc: &A,
    events: &[Event],
    first: usize,
    last: usize,
) -> Result<(), Message>
    ensures edits { OnOk result (edits_of edits.new ≡ delimiter_cell_edit events.now first last (edits_of edits.old)) }
    ensures memory { IfErr result IsOutOfMemory }
{
    let from = place_at(events, first);
    let to = place_at(events, last);
    let start = [
        enter_event(Name::GfmTableDelimiterCell, from),
        enter_event(Name::GfmTableDelimiterCellValue, from),
    ];
    put(edits, alloc, first, 0, &start)?;
    let end = [
        exit_event(Name::GfmTableDelimiterCellValue, to),
        exit_event(Name::GfmTableDelimiterCell, to),
    ];
    put(edits, alloc, later(1, last), 0, &end)
}

/// Adds the edits of the cell that ends before the event at an index, which may be a bar.
fn add_cell<A: Allocator + Clone>(
    edits: &mut EditMap<A>,
    alloc: &A,
    events: &[Event],
    row: Row,
    index: usize,
    is_bar: bool,
) -> Result<(), Message>
    ensures edits { OnOk result (edits_of edits.new ≡ cell_edit events.now row index is_bar (edits_of edits.old)) }
    ensures memory { IfErr result IsOutOfMemory }
{
    match row.kind {
        None => Ok(()),
        Some(RowKind::Text) => match row.first {
            Some(first) => add_text_cell(edits, alloc, events, cell_start(row, first), index),
            None => {
                if is_bar && row.is_begun {
                    return add_empty_cell(edits, alloc, events, index);
                }
                Ok(())
            }
        },
        Some(RowKind::Delimiters) => match (row.first, row.last) {
            (Some(first), Some(last)) => add_delimiter_cell(edits, alloc, events, first, last),
            _ => Ok(()),
        },
    }
}

/// Adds the edits of an event: a bar, or the end of a row, ends a cell.
fn add_event<A: Allocator + Clone>(
    edits: &mut EditMap<A>,
    alloc: &A,
    events: &[Event],
    row: Row,
    event: &Event,
    index: usize,
) -> Result<(), Message>
    ensures edits { OnOk result (edits_of edits.new ≡ event_edit events.now row event.now index (edits_of edits.old)) }
    ensures memory { IfErr result IsOutOfMemory }
{
    if is_event(Kind::Enter, Name::GfmTableCellDivider, event) {
        return add_cell(edits, alloc, events, row, index, true);
    }
    if event.kind == Kind::Exit && row_kind(event).is_some() {
        return add_cell(edits, alloc, events, row, index, false);
    }
    Ok(())
}

/// Adds the edits of an index.
fn add_index<A: Allocator + Clone>(
    edits: &mut EditMap<A>,
    alloc: &A,
    events: &[Event],
    row: Row,
    index: usize,
) -> Result<(), Message>
    ensures edits { OnOk result (edits_of edits.new ≡ index_edit events.now row index (edits_of edits.old)) }
    ensures memory { IfErr result IsOutOfMemory }
{
    match events.get(index) {
        None => Ok(()),
        Some(event) => add_event(edits, alloc, events, row, event, index),
    }
}

/// Adds the edits that make the cells of rows.
#[tactic(auto, using(crate::proofs::Steps::rows_more, crate::proofs::Steps::rows_start, crate::proofs::Steps::row_more, crate::proofs::Steps::row_start))]
pub(crate) fn add_rows<A: Allocator + Clone>(
    edits: &mut EditMap<A>,
    alloc: &A,
    events: &[Event],
) -> Result<(), Message>
    ensures edits { OnOk result (edits_of edits.new ≡ row_edits events.now (edits_of edits.old) (length events.now)) }
    ensures memory { IfErr result IsOutOfMemory }
{
    let mut row = outside();
    for index in 0..events.len() {
        add_index(edits, alloc, events, row, index)?;
        row = known_at(row, events, index);
    }
    Ok(())
}
