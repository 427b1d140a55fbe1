//! Tables (GFM 4.10).
//!
//! A row has a cell for each column: those that are missing are empty, and more aren't printed, but
//! the calls of footnotes in them count.
ghost use Rattle.std.specs.Prelude.{◌≡◌, ◌+◌, ◌<◌, ◌≤◌, [], IfOk, OnOk, List, length, take};
ghost use Rattle.std.specs.List.{flat_map};
ghost use Rattle.engine_events.specs.declared.event.Event.{Event as EventView};
ghost use Rattle.engine_events.specs.declared.event.Name.{Name};
ghost use Rattle.engine_events.specs.declared.event.Name.TheVariants as n;
ghost use Rattle.definition_inline.specs.Definition.{Definition};
ghost use Rattle.definition_page.specs.GfmTable.{cell_pieces, cells_pieces, row_pieces, head_pieces, body_pieces, table_pieces};
ghost use Rattle.definition_page.specs.InlinePieces.{Meaning, inline_counts, inline_pieces};
ghost use Rattle.event_grammar.specs.Trees.{Nodes, Around, AreNodes, IsNode, events_of};
ghost use Rattle.event_check.specs.Align.{table_align};
ghost use Rattle.event_meaning.specs.Children as tree;
ghost use Rattle.event_meaning.specs.GfmTable.{row_of, rows_of, endings_in, table_of};
ghost use Rattle.html_bytes.specs.Pieces.{in_bytes};
ghost use Rattle.html_leaves.specs.GfmTable.{cell_name};
ghost use Rattle.html_leaves.specs.Prints.{KeepsEnding, LaysOut};
ghost use Rattle.compile_blocks.specs.Found.{IsFound};
ghost use Rattle.compile_blocks.specs.GfmTable.{cells_in, next_cell, more_rows_pieces, head_row_of};
ghost use Rattle.compile_rows.specs.Columns.{AreCounted};
ghost use Rattle.compile_blocks.specs.Meant.{IsMeant};
ghost use Rattle.compile_raw.specs.Sound.{AreSound, StandsAt};

use crate::source::Source;
use crate::text::{TextPrinter, text_within};
use compile_levels::node::{Sibling, child, kids_in};
use compile_raw::push_endings;
use compile_rows::Columns;
use engine_events::event::{Event, Name};
use event_check::align::table_aligns;
use html_leaves::Page;
use html_leaves::gfm_table::{CellKind, cell_end, cell_tag};
use markdown_options::{AlignKind, Tables};
use std::alloc::{AllocError, Allocator};

/// Prints a table of these events, which is entered at an index of the list.
pub fn push_table<A: Allocator + Clone, T: Tables>(
    texts: &mut TextPrinter<A>,
    page: &mut Page<A>,
    columns: &mut Columns,
    source: &Source<'_, T, A>,
    index: usize,
    inside: &[Event],
) -> Result<(), AllocError>
    requires { AreCounted source.now.checked.bytes.now columns.old }
    ensures default { KeepsEnding page.old page.new }
    ensures counted { AreCounted source.now.checked.bytes.now columns.new }
    ensures printed { (m : Meaning) (ds : List Definition) (enter exit : EventView) (kids : Nodes) →
        let names = T.reference_of source.now.tables.now in let bytes = source.now.checked.bytes in
        IsMeant names source.now ds m → inside.now ≡ events_of kids → AreSound bytes.now kids →
        StandsAt source.now.checked.events.now index (Around enter kids exit) →
        OnOk result (LaysOut m.compile page.old page.new (in_bytes (table_pieces m (table_of names bytes.now kids)))) }
{
    let head = child(inside, Name::GfmTableHead);
    let aligns = aligns_of(&texts.alloc, source, index, head)?;
    page.fresh_tag("<table>")?;
    page.fresh()?;
    table_head(texts, page, columns, source, &aligns, inside_of(head))?;
    let body = kids_in(inside, Name::GfmTableBody);
    table_body(texts, page, columns, source, &aligns, after_of(head), body)?;
    page.fresh_tag("</table>")
}

/// The alignments of the columns of a table, which is entered at an index of the list, by its
/// head.
fn aligns_of<A: Allocator + Clone, T: Tables>(
    alloc: &A,
    source: &Source<'_, T, A>,
    index: usize,
    head: Option<Sibling<'_>>,
) -> Result<Vec<AlignKind, A>, AllocError>
    ensures { (enter exit : EventView) (kids : Nodes) → StandsAt source.now.checked.events.now index (Around enter kids exit) → AreNodes kids →
        IsFound n.GfmTableHead kids head.entry → IfOk result (λ aligns. aligns.items ≡ table_align (tree.kids_in n.GfmTableHead kids)) }
{
    match head {
        None => Ok(Vec::new(alloc.clone()?)),
        Some(head) => {
            let events = source.checked.events();
            let at = index_within(events, index, head.index);
            table_aligns(alloc.clone()?, events, at)
        }
    }
}

/// Prints the head of these events.
fn table_head<A: Allocator + Clone, T: Tables>(
    texts: &mut TextPrinter<A>,
    page: &mut Page<A>,
    columns: &mut Columns,
    source: &Source<'_, T, A>,
    aligns: &[AlignKind],
    head: &[Event],
) -> Result<(), AllocError>
    requires { AreCounted source.now.checked.bytes.now columns.old }
    ensures default { KeepsEnding page.old page.new }
    ensures counted { AreCounted source.now.checked.bytes.now columns.new }
    ensures printed { (m : Meaning) (ds : List Definition) (kids : Nodes) →
        let names = T.reference_of source.now.tables.now in let bytes = source.now.checked.bytes.now in
        IsMeant names source.now ds m → head.now ≡ events_of kids → AreSound bytes kids →
        OnOk result (LaysOut m.compile page.old page.new (in_bytes (head_pieces m aligns.now (head_row_of names bytes kids)))) }
{
    let row = child(head, Name::GfmTableRow);
    page.say("<thead>")?;
    table_row(
        texts,
        page,
        columns,
        source,
        CellKind::Head,
        aligns,
        inside_of(row),
    )?;
    let between = before_child(after_of(row), Name::GfmTableDelimiterRow);
    push_endings(page, source.bytes(), between)?;
    page.fresh_tag("</thead>")
}

/// Prints the body of these events, if it has rows, after the endings among those after the head.
fn table_body<A: Allocator + Clone, T: Tables>(
    texts: &mut TextPrinter<A>,
    page: &mut Page<A>,
    columns: &mut Columns,
    source: &Source<'_, T, A>,
    aligns: &[AlignKind],
    after: &[Event],
    body: &[Event],
) -> Result<(), AllocError>
    requires { AreCounted source.now.checked.bytes.now columns.old }
    ensures default { KeepsEnding page.old page.new }
    ensures counted { AreCounted source.now.checked.bytes.now columns.new }
    ensures printed { (m : Meaning) (ds : List Definition) (kids others : Nodes) →
        let names = T.reference_of source.now.tables.now in let bytes = source.now.checked.bytes.now in
        IsMeant names source.now ds m → body.now ≡ events_of kids → AreSound bytes kids → after.now ≡ events_of others → AreSound bytes others →
        let endings = endings_in names bytes (tree.before_child n.GfmTableBody others) in
        OnOk result (LaysOut m.compile page.old page.new (in_bytes (body_pieces m aligns.now endings (rows_of names bytes kids)))) }
{
    match child(body, Name::GfmTableRow) {
        None => Ok(()),
        Some(row) => {
            let between = before_child(after, Name::GfmTableBody);
            push_endings(page, source.bytes(), between)?;
            page.say("<tbody>")?;
            table_row(
                texts,
                page,
                columns,
                source,
                CellKind::Body,
                aligns,
                row.node.inside,
            )?;
            more_rows(texts, page, columns, source, aligns, row.after)?;
            page.fresh_tag("</tbody>")
        }
    }
}

/// Prints the rows of a body after another, each after the endings before it.
fn more_rows<A: Allocator + Clone, T: Tables>(
    texts: &mut TextPrinter<A>,
    page: &mut Page<A>,
    columns: &mut Columns,
    source: &Source<'_, T, A>,
    aligns: &[AlignKind],
    events: &[Event],
) -> Result<(), AllocError>
    requires { AreCounted source.now.checked.bytes.now columns.old }
    ensures default { KeepsEnding page.old page.new }
    ensures counted { AreCounted source.now.checked.bytes.now columns.new }
    ensures printed { (m : Meaning) (ds : List Definition) (kids : Nodes) →
        let names = T.reference_of source.now.tables.now in let bytes = source.now.checked.bytes.now in
        IsMeant names source.now ds m → events.now ≡ events_of kids → AreSound bytes kids →
        OnOk result (LaysOut m.compile page.old page.new (in_bytes (more_rows_pieces names bytes m aligns.now kids))) }
{
    let mut rest = events;
    while let Some(row) = child(rest, Name::GfmTableRow) {
        push_endings(page, source.bytes(), up_to(rest, row.index))?;
        table_row(
            texts,
            page,
            columns,
            source,
            CellKind::Body,
            aligns,
            row.node.inside,
        )?;
        rest = row.after;
    }
    Ok(())
}

/// Prints a row of cells of this kind.
fn table_row<A: Allocator + Clone, T: Tables>(
    texts: &mut TextPrinter<A>,
    page: &mut Page<A>,
    columns: &mut Columns,
    source: &Source<'_, T, A>,
    kind: CellKind,
    aligns: &[AlignKind],
    row: &[Event],
) -> Result<(), AllocError>
    requires { AreCounted source.now.checked.bytes.now columns.old }
    ensures default { KeepsEnding page.old page.new }
    ensures counted { AreCounted source.now.checked.bytes.now columns.new }
    ensures printed { (m : Meaning) (ds : List Definition) (kids : Nodes) →
        let names = T.reference_of source.now.tables.now in let bytes = source.now.checked.bytes.now in
        IsMeant names source.now ds m → row.now ≡ events_of kids → AreSound bytes kids →
        OnOk result (LaysOut m.compile page.old page.new (in_bytes (row_pieces m (cell_name kind) aligns.now (row_of names bytes kids [])))) }
{
    page.fresh_tag("<tr>")?;
    table_cells(texts, page, columns, source, kind, aligns, row)?;
    page.fresh_tag("</tr>")
}

/// Prints the cells of a row, one for each column.
fn table_cells<A: Allocator + Clone, T: Tables>(
    texts: &mut TextPrinter<A>,
    page: &mut Page<A>,
    columns: &mut Columns,
    source: &Source<'_, T, A>,
    kind: CellKind,
    aligns: &[AlignKind],
    row: &[Event],
) -> Result<(), AllocError>
    requires { AreCounted source.now.checked.bytes.now columns.old }
    ensures default { KeepsEnding page.old page.new }
    ensures counted { AreCounted source.now.checked.bytes.now columns.new }
    ensures printed { (m : Meaning) (ds : List Definition) (kids : Nodes) →
        let names = T.reference_of source.now.tables.now in let bytes = source.now.checked.bytes.now in
        IsMeant names source.now ds m → row.now ≡ events_of kids → AreSound bytes kids →
        OnOk result (LaysOut m.compile page.old page.new (in_bytes (cells_pieces m (cell_name kind) aligns.now (cells_in names bytes kids)))) }
{
    let mut rest = row;
    for align in aligns {
        let cell = child(rest, Name::GfmTableCell);
        table_cell(texts, page, columns, source, kind, *align, cell)?;
        rest = after_of(cell);
    }
    more_cells(texts, page, columns, source, rest)
}

/// Prints the cell of a column, or an empty one where it is missing.
fn table_cell<A: Allocator + Clone, T: Tables>(
    texts: &mut TextPrinter<A>,
    page: &mut Page<A>,
    columns: &mut Columns,
    source: &Source<'_, T, A>,
    kind: CellKind,
    align: AlignKind,
    cell: Option<Sibling<'_>>,
) -> Result<(), AllocError>
    requires { AreCounted source.now.checked.bytes.now columns.old }
    ensures default { KeepsEnding page.old page.new }
    ensures counted { AreCounted source.now.checked.bytes.now columns.new }
    ensures printed { (m : Meaning) (ds : List Definition) (kids : Nodes) →
        let names = T.reference_of source.now.tables.now in let bytes = source.now.checked.bytes.now in
        IsMeant names source.now ds m → IsFound n.GfmTableCell kids cell.entry → AreSound bytes kids →
        OnOk result (LaysOut m.compile page.old page.new (in_bytes (cell_pieces m (cell_name kind) align (next_cell names bytes kids)))) }
{
    page.fresh_tag(cell_tag(kind, align))?;
    cell_text(texts, page, columns, source, cell)?;
    page.say(cell_end(kind))
}

/// Prints the text of a cell, if there is one.
fn cell_text<A: Allocator + Clone, T: Tables>(
    texts: &mut TextPrinter<A>,
    page: &mut Page<A>,
    columns: &mut Columns,
    source: &Source<'_, T, A>,
    cell: Option<Sibling<'_>>,
) -> Result<(), AllocError>
    requires { AreCounted source.now.checked.bytes.now columns.old }
    ensures default { KeepsEnding page.old page.new }
    ensures counted { AreCounted source.now.checked.bytes.now columns.new }
    ensures printed { (m : Meaning) (ds : List Definition) (kids : Nodes) →
        let names = T.reference_of source.now.tables.now in let bytes = source.now.checked.bytes.now in
        IsMeant names source.now ds m → IsFound n.GfmTableCell kids cell.entry → AreSound bytes kids →
        OnOk result (LaysOut m.compile page.old page.new (in_bytes (inline_pieces m (next_cell names bytes kids)))) }
{
    match cell {
        None => Ok(()),
        Some(cell) => texts.text(page, columns, source, true, text_within(cell.node.inside)),
    }
}

/// Counts the calls of footnotes in the cells beyond the columns, which aren't printed.
fn more_cells<A: Allocator + Clone, T: Tables>(
    texts: &mut TextPrinter<A>,
    page: &mut Page<A>,
    columns: &mut Columns,
    source: &Source<'_, T, A>,
    row: &[Event],
) -> Result<(), AllocError>
    requires { AreCounted source.now.checked.bytes.now columns.old }
    ensures default { KeepsEnding page.old page.new }
    ensures counted { AreCounted source.now.checked.bytes.now columns.new }
    ensures printed { (m : Meaning) (ds : List Definition) (kids : Nodes) →
        let names = T.reference_of source.now.tables.now in let bytes = source.now.checked.bytes.now in
        IsMeant names source.now ds m → row.now ≡ events_of kids → AreSound bytes kids →
        OnOk result (LaysOut m.compile page.old page.new (in_bytes (flat_map (inline_counts m) (cells_in names bytes kids)))) }
{
    let mut rest = row;
    while let Some(cell) = child(rest, Name::GfmTableCell) {
        texts.count_text(page, columns, source, text_within(cell.node.inside))?;
        rest = cell.after;
    }
    Ok(())
}

/// The index in a list of what is at an index among the events in the one that is entered at `enter`.
fn index_within(events: &[Event], enter: usize, index: usize) -> usize
    ensures { enter + 1 + index < length events.now → result ≡ enter + 1 + index }
{
    enter
        .saturating_add(1)
        .saturating_add(index)
        .min(events.len())
}

/// The events in a child that was found, or none.
fn inside_of<'e>(found: Option<Sibling<'e>>) -> &'e [Event]
    ensures { (name : Name) (kids : Nodes) → IsFound name kids found.entry → result.now ≡ events_of (tree.kids_in name kids) }
{
    match found {
        None => &[],
        Some(child) => child.node.inside,
    }
}

/// The events of the siblings after a child that was found, or none.
fn after_of<'e>(found: Option<Sibling<'e>>) -> &'e [Event]
    ensures { (name : Name) (kids : Nodes) → IsFound name kids found.entry → result.now ≡ events_of (tree.after_child name kids) }
{
    match found {
        None => &[],
        Some(child) => child.after,
    }
}

/// The events of the siblings before the first that has a name, or all.
fn before_child(events: &[Event], name: Name) -> &[Event]
    ensures { (kids : Nodes) → AreNodes kids → events.now ≡ events_of kids → result.now ≡ events_of (tree.before_child name kids) }
{
    match child(events, name) {
        None => events,
        Some(found) => up_to(events, found.index),
    }
}

/// The events before an index.
fn up_to(events: &[Event], index: usize) -> &[Event]
    requires { index ≤ length events.now }
    ensures { result.now ≡ take index events.now }
{
    &events[..index]
}
