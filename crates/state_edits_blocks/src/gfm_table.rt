//! Tables: a head, and the rows of the body right after it (GFM 4.10).
//!
//! ```text
//! gfm_table ::= head [ eol body ]
//! body ::= row *( eol row )
//! ```
//!
//! States read the head and each row of the body apart. They are of one table while one line ending is
//! between them, and the prefixes of containers on the next line.
ghost use Rattle.std.specs.Prelude.{◌≡◌, OnOk, IfOk, IfErr, length};
ghost use Rattle.markdown_options.specs.Messages.{IsOutOfMemory};
ghost use Rattle.engine_edits.specs.Edits.{edits_of};
ghost use Rattle.state_edits_blocks.specs.GfmTable.{after_event, after_index, after_other, after_waiting, begun_edit, body_edit, end_edit};
ghost use Rattle.state_edits_blocks.specs.GfmTable.{event_edit, goes_on, in_body, index_edit, is_prefix, is_row_next, last_edit, no_table};
ghost use Rattle.state_edits_blocks.specs.GfmTable.{table_edits, waiting_edit, with_end, with_ending, wraps};

use crate::added::put;
use crate::gfm_table_row::add_rows;
use engine_edits::EditMap;
use markdown_engine::Message;
use markdown_engine::event::{Event, Kind, Name};
use state_edits_data::each::{enter_event, exit_event, is_event, later, place_at};
use std::alloc::Allocator;

/// What is known of the table that is open.
#[derive(Clone, Copy)]
struct Table {
    /// Whether its body began.
    in_body: bool,
    /// Where its head, or its last row, ended, if no other block came since.
    end: Option<usize>,
    /// Whether a line ended since.
    on_next_line: bool,
}

/// No body is open, and nothing ended.
fn no_table() -> Table
    ensures { result ≡ no_table }
{
    Table {
        in_body: false,
        end: None,
        on_next_line: false,
    }
}

/// A table in whose body a row begins.
fn in_body() -> Table
    ensures { result ≡ in_body }
{
    Table {
        in_body: true,
        end: None,
        on_next_line: false,
    }
}

/// A table whose head, or last row, ends at an index.
fn with_end(table: Table, index: usize) -> Table
    ensures { result ≡ with_end table index }
{
    Table {
        in_body: table.in_body,
        end: Some(index),
        on_next_line: false,
    }
}

/// A table after the ending of its last line.
fn with_ending(table: Table) -> Table
    ensures { result ≡ with_ending table }
{
    Table {
        on_next_line: true,
        ..table
    }
}

/// Whether an event is of the prefix of a line.
pub(crate) fn is_prefix(event: &Event) -> bool
    ensures { result ≡ is_prefix event.now }
{
    matches!(
        event.name,
        Name::SpaceOrTab | Name::BlockQuotePrefix | Name::BlockQuoteMarker
    )
}

/// Whether a row may still follow after an event: a line ending, and the prefix of the next line.
fn goes_on(table: Table, event: &Event) -> bool
    ensures { result ≡ goes_on table event.now }
{
    if table.on_next_line {
        return is_prefix(event) || is_event(Kind::Exit, Name::LineEnding, event);
    }
    is_event(Kind::Enter, Name::LineEnding, event)
}

/// Whether an event begins the next row.
fn is_row_next(table: Table, event: &Event) -> bool
    ensures { result ≡ is_row_next table event.now }
{
    table.on_next_line && is_event(Kind::Enter, Name::GfmTableRow, event)
}

/// What is known after an event that may follow the end of a head or a row.
fn after_waiting(table: Table, event: &Event) -> Table
    ensures { result ≡ after_waiting table event.now }
{
    if goes_on(table, event) {
        return with_ending(table);
    }
    if is_row_next(table, event) {
        return in_body();
    }
    no_table()
}

/// What is known after any other event that has an index.
fn after_other(table: Table, event: &Event, index: usize) -> Table
    ensures { result ≡ after_other table event.now index }
{
    if is_event(Kind::Exit, Name::GfmTableHead, event) {
        return with_end(table, index);
    }
    if table.in_body && is_event(Kind::Exit, Name::GfmTableRow, event) {
        return with_end(table, index);
    }
    table
}

/// What is known after an event that has an index.
fn after_event(table: Table, event: &Event, index: usize) -> Table
    ensures { result ≡ after_event table event.now index }
{
    match table.end {
        Some(_) => after_waiting(table, event),
        None => after_other(table, event, index),
    }
}

/// What is known after the event at an index, if there is one.
fn after_index(table: Table, events: &[Event], index: usize) -> Table
    ensures { result ≡ after_index events.now table index }
{
    match events.get(index) {
        None => table,
        Some(event) => after_event(table, event, index),
    }
}

/// Adds the edit that begins a table, if an event begins its head.
fn add_begun<A: Allocator + Clone>(
    edits: &mut EditMap<A>,
    alloc: &A,
    events: &[Event],
    event: &Event,
    index: usize,
) -> Result<(), Message>
    ensures edits { OnOk result (edits_of edits.new ≡ begun_edit events.now event.now index (edits_of edits.old)) }
    ensures memory { IfErr result IsOutOfMemory }
{
    if is_event(Kind::Enter, Name::GfmTableHead, event) {
        let start = [enter_event(Name::GfmTable, place_at(events, index))];
        return put(edits, alloc, index, 0, &start);
    }
    Ok(())
}

/// Adds the edit that begins the body of a table, unless it began.
fn add_body<A: Allocator + Clone>(
    edits: &mut EditMap<A>,
    alloc: &A,
    events: &[Event],
    table: Table,
    index: usize,
) -> Result<(), Message>
    ensures edits { OnOk result (edits_of edits.new ≡ body_edit events.now table index (edits_of edits.old)) }
    ensures memory { IfErr result IsOutOfMemory }
{
    if table.in_body {
        return Ok(());
    }
    let start = [enter_event(Name::GfmTableBody, place_at(events, index))];
    put(edits, alloc, index, 0, &start)
}

/// Adds the edit that ends a table behind an index, and its body if it has one.
fn add_end<A: Allocator + Clone>(
    edits: &mut EditMap<A>,
    alloc: &A,
    events: &[Event],
    table: Table,
    end: usize,
) -> Result<(), Message>
    ensures edits { OnOk result (edits_of edits.new ≡ end_edit events.now table end (edits_of edits.old)) }
    ensures memory { IfErr result IsOutOfMemory }
{
    let place = place_at(events, end);
    if table.in_body {
        let both = [
            exit_event(Name::GfmTableBody, place),
            exit_event(Name::GfmTable, place),
        ];
        return put(edits, alloc, later(1, end), 0, &both);
    }
    let one = [exit_event(Name::GfmTable, place)];
    put(edits, alloc, later(1, end), 0, &one)
}

/// Adds the edits of an event that may follow the end of a head or a row.
fn add_waiting<A: Allocator + Clone>(
    edits: &mut EditMap<A>,
    alloc: &A,
    events: &[Event],
    table: Table,
    end: usize,
    event: &Event,
    index: usize,
) -> Result<(), Message>
    ensures edits { OnOk result (edits_of edits.new ≡ waiting_edit events.now table end event.now index (edits_of edits.old)) }
    ensures memory { IfErr result IsOutOfMemory }
{
    if goes_on(table, event) {
        return Ok(());
    }
    if is_row_next(table, event) {
        return add_body(edits, alloc, events, table, index);
    }
    add_end(edits, alloc, events, table, end)?;
    add_begun(edits, alloc, events, event, index)
}

/// Adds the edits of an event.
fn add_event<A: Allocator + Clone>(
    edits: &mut EditMap<A>,
    alloc: &A,
    events: &[Event],
    table: Table,
    event: &Event,
    index: usize,
) -> Result<(), Message>
    ensures edits { OnOk result (edits_of edits.new ≡ event_edit events.now table event.now index (edits_of edits.old)) }
    ensures memory { IfErr result IsOutOfMemory }
{
    match table.end {
        Some(end) => add_waiting(edits, alloc, events, table, end, event, index),
        None => add_begun(edits, alloc, events, event, index),
    }
}

/// Adds the edits of an index.
fn add_index<A: Allocator + Clone>(
    edits: &mut EditMap<A>,
    alloc: &A,
    events: &[Event],
    table: Table,
    index: usize,
) -> Result<(), Message>
    ensures edits { OnOk result (edits_of edits.new ≡ index_edit events.now table index (edits_of edits.old)) }
    ensures memory { IfErr result IsOutOfMemory }
{
    match events.get(index) {
        None => Ok(()),
        Some(event) => add_event(edits, alloc, events, table, event, index),
    }
}

/// Adds the edits of a table that ends with the events.
fn add_last<A: Allocator + Clone>(
    edits: &mut EditMap<A>,
    alloc: &A,
    events: &[Event],
    table: Table,
) -> Result<(), Message>
    ensures edits { OnOk result (edits_of edits.new ≡ last_edit events.now table (edits_of edits.old)) }
    ensures memory { IfErr result IsOutOfMemory }
{
    match table.end {
        Some(end) => add_end(edits, alloc, events, table, end),
        None => Ok(()),
    }
}

/// Adds the edits that make tables of heads and rows.
#[tactic(auto, using(crate::proofs::Steps::wraps_more, crate::proofs::Steps::wraps_start, crate::proofs::Steps::table_more, crate::proofs::Steps::table_start))]
fn add_tables<A: Allocator + Clone>(
    edits: &mut EditMap<A>,
    alloc: &A,
    events: &[Event],
) -> Result<(), Message>
    ensures edits { OnOk result (edits_of edits.new ≡ wraps events.now (edits_of edits.old)) }
    ensures memory { IfErr result IsOutOfMemory }
{
    let mut table = no_table();
    for index in 0..events.len() {
        add_index(edits, alloc, events, table, index)?;
        table = after_index(table, events, index);
    }
    add_last(edits, alloc, events, table)
}

/// The edits that make tables, with their cells.
pub fn table_edits<A: Allocator + Clone>(alloc: &A, events: &[Event]) -> Result<EditMap<A>, Message>
    ensures edits { IfOk result (λ edits. edits_of edits ≡ table_edits events.now) }
    ensures memory { IfErr result IsOutOfMemory }
{
    let mut edits = EditMap::new(alloc.clone()?);
    add_rows(&mut edits, alloc, events)?;
    add_tables(&mut edits, alloc, events)?;
    Ok(edits)
}
