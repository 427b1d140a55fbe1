//! Tables (GFM 4.10).
//!
//!     table ::= head delimiters row*
//!
//! A row has a cell for each delimiter: those that are missing are empty, and more aren't printed,
//! but the calls of footnotes in them count.
ghost use Rattle.std.specs.Prelude.{◌≤◌, OnOk, length, false};
ghost use Rattle.definition_inline.specs.Targets.{Targets};
ghost use Rattle.definition_text.specs.BlockLines.{own_lines};
ghost use Rattle.definition_block.specs.GfmTable.{line_cells};
ghost use Rattle.text_pieces.specs.ParagraphLines.{HaveNoEnding};
ghost use Rattle.text_pieces.specs.Pieces.{piece_line, piece_lines};
ghost use Rattle.block_cells.specs.GfmTable.{cell_view, cells_left};
ghost use Rattle.definition_block.specs.Tree.{Table};
ghost use Rattle.definition_page.specs.Read.{on_page, read_cell};
ghost use Rattle.html_bytes.specs.Document.{reading_of};
ghost use Rattle.html_bytes.specs.Html.{leaf_bytes};
ghost use Rattle.html_contents.specs.Texts.{KnowsTargets, document_by};
ghost use Rattle.html_leaves.specs.GfmTable.{cell_name, cell_bytes};
ghost use Rattle.html_rows.specs.GfmTable.{CellsAreClear, IsClearIf, next_cell_bytes, cells_bytes, counts_bytes};
ghost use Rattle.html_rows.specs.GfmTable.{row_bytes, rows_bytes, head_bytes, body_bytes};
ghost use Rattle.html_looseness.specs.Printable.{AreClear};
ghost use Rattle.html_leaves.specs.Prints.{LaysOut, KeepsEnding};

use block_cells::{Cell, Cells, read_delimiters};
use html_contents::{TextBuffers, Texts};
use html_leaves::Page;
use html_leaves::gfm_table::{CellKind, cell_end, cell_tag};
use markdown_options::{AlignKind, LineEnding, Tables};
use std::alloc::{AllocError, Allocator};
use text_pieces::Piece;

/// Prints a table of these lines: its head, its row of delimiters, and the rows of its body.
pub fn table<'t, T: Tables, A: Allocator + Clone>(
    page: &mut Page<A>,
    buffers: &mut TextBuffers<'t, A>,
    texts: &Texts<'t, '_, T, A>,
    lines: &[Piece<'t>],
) -> Result<(), AllocError>
    requires { 2 ≤ length lines.now }
    ensures default { KeepsEnding page.old page.new }
    ensures printed { (ds : Targets) → KnowsTargets texts.now ds → AreClear (piece_lines lines.now) →
        let d = document_by T.Tables texts.now ds in
        OnOk result (LaysOut d.options.compile page.old page.new (leaf_bytes d on_page false (Table (own_lines (piece_lines lines.now))))) }
{
    let mut aligns = Vec::new(buffers.alloc.clone()?);
    read_delimiters(&mut aligns, lines[1])?;
    page.fresh_tag("<table>")?;
    page.fresh()?;
    table_head(page, buffers, texts, &aligns, &lines[0])?;
    table_body(page, buffers, texts, &aligns, lines[1].ending, &lines[2..])?;
    page.fresh_tag("</table>")
}

/// Prints the head, with the ending of its line.
fn table_head<'t, T: Tables, A: Allocator + Clone>(
    page: &mut Page<A>,
    buffers: &mut TextBuffers<'t, A>,
    texts: &Texts<'t, '_, T, A>,
    aligns: &[AlignKind],
    line: &Piece<'t>,
) -> Result<(), AllocError>
    ensures default { KeepsEnding page.old page.new }
    ensures printed { (ds : Targets) → KnowsTargets texts.now ds → HaveNoEnding (piece_line line.now).codes →
        let d = document_by T.Tables texts.now ds in
        OnOk result (LaysOut d.options.compile page.old page.new (head_bytes d aligns.now (piece_line line.now))) }
{
    page.say("<thead>")?;
    table_line(page, buffers, texts, CellKind::Head, aligns, line)?;
    page.push_ending(line.ending)?;
    page.fresh_tag("</thead>")
}

/// Prints the body, if it has rows, after the ending of the row of delimiters.
fn table_body<'t, T: Tables, A: Allocator + Clone>(
    page: &mut Page<A>,
    buffers: &mut TextBuffers<'t, A>,
    texts: &Texts<'t, '_, T, A>,
    aligns: &[AlignKind],
    ending: Option<LineEnding>,
    rows: &[Piece<'t>],
) -> Result<(), AllocError>
    ensures default { KeepsEnding page.old page.new }
    ensures printed { (ds : Targets) → KnowsTargets texts.now ds → AreClear (piece_lines rows.now) →
        let d = document_by T.Tables texts.now ds in
        OnOk result (LaysOut d.options.compile page.old page.new (body_bytes d aligns.now ending (own_lines (piece_lines rows.now)))) }
{
    if rows.is_empty() {
        return Ok(());
    }
    page.push_ending(ending)?;
    page.say("<tbody>")?;
    table_rows(page, buffers, texts, aligns, rows)?;
    page.fresh_tag("</tbody>")
}

/// Prints the rows of a body without the last ending.
fn table_rows<'t, T: Tables, A: Allocator + Clone>(
    page: &mut Page<A>,
    buffers: &mut TextBuffers<'t, A>,
    texts: &Texts<'t, '_, T, A>,
    aligns: &[AlignKind],
    rows: &[Piece<'t>],
) -> Result<(), AllocError>
    ensures default { KeepsEnding page.old page.new }
    ensures printed { (ds : Targets) → KnowsTargets texts.now ds → AreClear (piece_lines rows.now) →
        let d = document_by T.Tables texts.now ds in
        OnOk result (LaysOut d.options.compile page.old page.new (rows_bytes d aligns.now (own_lines (piece_lines rows.now)))) }
{
    let mut waiting = None;
    for row in rows {
        page.push_ending(waiting)?;
        table_line(page, buffers, texts, CellKind::Body, aligns, row)?;
        waiting = row.ending;
    }
    Ok(())
}

/// Prints a row of cells of this kind without its ending.
fn table_line<'t, T: Tables, A: Allocator + Clone>(
    page: &mut Page<A>,
    buffers: &mut TextBuffers<'t, A>,
    texts: &Texts<'t, '_, T, A>,
    kind: CellKind,
    aligns: &[AlignKind],
    line: &Piece<'t>,
) -> Result<(), AllocError>
    ensures default { KeepsEnding page.old page.new }
    ensures printed { (ds : Targets) → KnowsTargets texts.now ds → HaveNoEnding (piece_line line.now).codes →
        let d = document_by T.Tables texts.now ds in
        OnOk result (LaysOut d.options.compile page.old page.new (row_bytes d (cell_name kind) aligns.now (piece_line line.now))) }
{
    page.fresh_tag("<tr>")?;
    table_cells(page, buffers, texts, kind, aligns, line)?;
    page.fresh_tag("</tr>")
}

/// Prints the cells of a row, one for each column.
fn table_cells<'t, T: Tables, A: Allocator + Clone>(
    page: &mut Page<A>,
    buffers: &mut TextBuffers<'t, A>,
    texts: &Texts<'t, '_, T, A>,
    kind: CellKind,
    aligns: &[AlignKind],
    line: &Piece<'t>,
) -> Result<(), AllocError>
    ensures default { KeepsEnding page.old page.new }
    ensures printed { (ds : Targets) → KnowsTargets texts.now ds → HaveNoEnding (piece_line line.now).codes →
        let d = document_by T.Tables texts.now ds in
        OnOk result (LaysOut d.options.compile page.old page.new (cells_bytes d (cell_name kind) aligns.now (line_cells (piece_line line.now)))) }
{
    let mut cells = Cells::new(*line);
    for align in aligns {
        let cell = cells.next();
        next_cell(page, buffers, texts, kind, *align, cell)?;
    }
    more_cells(page, buffers, texts, cells)
}

/// Counts the calls of footnotes in the cells beyond the columns, which aren't printed.
fn more_cells<'t, T: Tables, A: Allocator + Clone>(
    page: &mut Page<A>,
    buffers: &mut TextBuffers<'t, A>,
    texts: &Texts<'t, '_, T, A>,
    cells: Cells<'t>,
) -> Result<(), AllocError>
    ensures default { KeepsEnding page.old page.new }
    ensures printed { (ds : Targets) → KnowsTargets texts.now ds → CellsAreClear (cells_left cells.entry) →
        let d = document_by T.Tables texts.now ds in
        OnOk result (LaysOut d.options.compile page.old page.new (counts_bytes d (cells_left cells.entry))) }
{
    let mut left = cells;
    while let Some(cell) = left.next() {
        texts.count_cell(&mut page.out, buffers, &cell)?;
    }
    Ok(())
}

/// Prints the cell of a column, or an empty one where it is missing.
fn next_cell<'t, T: Tables, A: Allocator + Clone>(
    page: &mut Page<A>,
    buffers: &mut TextBuffers<'t, A>,
    texts: &Texts<'t, '_, T, A>,
    kind: CellKind,
    align: AlignKind,
    cell: Option<Cell<'t>>,
) -> Result<(), AllocError>
    ensures default { KeepsEnding page.old page.new }
    ensures printed { (ds : Targets) → KnowsTargets texts.now ds → IsClearIf cell.entry →
        let d = document_by T.Tables texts.now ds in
        OnOk result (LaysOut d.options.compile page.old page.new (next_cell_bytes d (cell_name kind) align cell.entry)) }
{
    match cell {
        Some(cell) => present_cell(page, buffers, texts, kind, align, &cell),
        None => page.missing_cell(kind, align),
    }
}

/// Prints a cell.
fn present_cell<'t, T: Tables, A: Allocator + Clone>(
    page: &mut Page<A>,
    buffers: &mut TextBuffers<'t, A>,
    texts: &Texts<'t, '_, T, A>,
    kind: CellKind,
    align: AlignKind,
    cell: &Cell<'t>,
) -> Result<(), AllocError>
    ensures default { KeepsEnding page.old page.new }
    ensures printed { (ds : Targets) → KnowsTargets texts.now ds →
        HaveNoEnding (piece_line cell.now.line).codes →
        let d = document_by T.Tables texts.now ds in
        let structure = read_cell (reading_of d) (cell_view cell.now) in
        OnOk result (LaysOut d.options.compile page.old page.new (cell_bytes d (cell_name kind) align structure)) }
{
    page.fresh_tag(cell_tag(kind, align))?;
    texts.push_cell(&mut page.out, buffers, cell)?;
    page.say(cell_end(kind))
}
