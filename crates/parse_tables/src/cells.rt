//! Rows of cells (GFM 4.10).
//!
//!     row ::= (white* bar)? cell (bar cell)* (bar white*)?
ghost use Rattle.std.specs.Prelude.{◌≡◌, ◌∷◌, ◌<◌, List, [], OnOk, slice_index, true, ℕ};
ghost use Rattle.parse_lines.specs.Content.{BeginsLineAfter};
ghost use Rattle.parse_lines.specs.Standing.{standing};
ghost use Rattle.engine_events.specs.declared.event.Name.TheVariants.{GfmTableCell, GfmTableCellDivider, GfmTableCellText, GfmTableRow, SpaceOrTab};
ghost use Rattle.parse_output.specs.Children.{may_enter};
ghost use Rattle.parse_lines.specs.Open.{still_open};
ghost use Rattle.definition_inline.specs.Targets.{Targets};
ghost use Rattle.definition_block.specs.GfmTable.{Cell as CellView};
ghost use Rattle.definition_text.specs.Columns.{bytes_of};
ghost use Rattle.text_pieces.specs.Pieces.{piece_line};
ghost use Rattle.block_cells.specs.GfmTable.{cell_view, cells_left};
ghost use Rattle.parse_leaves.specs.Texts.{KnowsTargets, reading_by};
ghost use Rattle.parse_tables.specs.Cells.{WritesCellHere, WritesFirstBar, WritesFirstCellsHere, WritesInCellHere};
ghost use Rattle.parse_tables.specs.Rows.{WritesRowHere};

use block_cells::{Cell, Cells};
use engine_events::event::Name;
use markdown_options::{Kind, Tables};
use parse_leaves::{Buffers, push_text};
use parse_lines::Walk;
use parse_lines::cut::{bytes_from, first};
use parse_raw::Texts;
use std::alloc::{AllocError, Allocator};
use std::slice::from_ref;
use text_bytes::{is_blank, white_size};
use text_pieces::Piece;

/// A row of cells: a line, which is the rest of the line.
#[tactic(auto, using(parse_output::proofs::Classes::enters_in), unfolding(parse_output::specs::Children::may_hold))]
pub(crate) fn push_row<'a, T: Tables, A: Allocator + Clone>(
    walk: &mut Walk<'_, A>,
    texts: &Texts<'a, '_, T, A>,
    buffers: &mut Buffers<'a, A>,
    line: Piece<'a>,
) -> Result<(), AllocError>
    requires child { may_enter (still_open walk.old) GfmTableRow ≡ true }
    ensures open { OnOk result (still_open walk.new ≡ still_open walk.old) }
    ensures written { OnOk result ((ds : Targets) → KnowsTargets texts.now ds
        → WritesRowHere (reading_by T.Tables texts.now ds) (piece_line line.entry) walk.old walk.new) }
{
    walk.enter(Name::GfmTableRow)?;
    let text = bytes_only(line.text);
    let start = walk.index_of(text.len());
    walk.to(Name::SpaceOrTab, start)?;
    push_first_divider(walk, text.as_bytes())?;
    push_cells(walk, texts, buffers, Cells::new(line))?;
    walk.all(Name::SpaceOrTab)?;
    walk.exit(Name::GfmTableRow)
}

/// A text: its bytes are below 256.
fn bytes_only(text: &str) -> &str
    ensures same { result.now ≡ text.now }
    ensures bytes { (k : ℕ) → slice_index result.now k < 256 }
{
    text
}

/// The bar before the first cell, if there is one, with the spaces and tabs before it.
fn push_first_divider<A: Allocator>(walk: &mut Walk<'_, A>, bytes: &[u8]) -> Result<(), AllocError>
    requires space { may_enter (still_open walk.old) SpaceOrTab ≡ true }
    requires divider { may_enter (still_open walk.old) GfmTableCellDivider ≡ true }
    ensures open { OnOk result (still_open walk.new ≡ still_open walk.old) }
    ensures written { OnOk result (WritesFirstBar bytes.now walk.old walk.new) }
{
    let white = white_size(bytes);
    if first(bytes_from(bytes, white)) != b'|' {
        return Ok(());
    }
    walk.token(Name::SpaceOrTab, white)?;
    walk.token(Name::GfmTableCellDivider, 1)
}

/// The cells of a line, each with the bar after it.
fn push_cells<'a, T: Tables, A: Allocator + Clone>(
    walk: &mut Walk<'_, A>,
    texts: &Texts<'a, '_, T, A>,
    buffers: &mut Buffers<'a, A>,
    cells: Cells<'a>,
) -> Result<(), AllocError>
    requires cell { may_enter (still_open walk.old) GfmTableCell ≡ true }
    requires divider { may_enter (still_open walk.old) GfmTableCellDivider ≡ true }
    ensures open { OnOk result (still_open walk.new ≡ still_open walk.old) }
    ensures written { OnOk result ((ds : Targets) → KnowsTargets texts.now ds
        → WritesFirstCellsHere (reading_by T.Tables texts.now ds) (cells_left cells.entry) [] walk.old walk.new) }
{
    let mut left = cells;
    while let Some(cell) = left.next() {
        push_cell_and_bar(walk, texts, buffers, &cell)?;
    }
    Ok(())
}

/// A cell, which comes next, with the bar after it, if there is one.
fn push_cell_and_bar<'a, T: Tables, A: Allocator + Clone>(
    walk: &mut Walk<'_, A>,
    texts: &Texts<'a, '_, T, A>,
    buffers: &mut Buffers<'a, A>,
    cell: &Cell<'a>,
) -> Result<(), AllocError>
    requires cell { may_enter (still_open walk.old) GfmTableCell ≡ true }
    requires divider { may_enter (still_open walk.old) GfmTableCellDivider ≡ true }
    ensures open { OnOk result (still_open walk.new ≡ still_open walk.old) }
    ensures written { OnOk result ((ds : Targets) → KnowsTargets texts.now ds → (cs : List CellView)
        → WritesFirstCellsHere (reading_by T.Tables texts.now ds) (cell_view cell.now ∷ cs) cs walk.old walk.new) }
{
    push_cell(walk, texts, buffers, cell)?;
    match cell.after {
        Kind::Punctuation => walk.token(Name::GfmTableCellDivider, 1),
        _ => Ok(()),
    }
}

/// A cell, which comes next.
#[tactic(auto, using(parse_output::proofs::Classes::enters_in), unfolding(parse_output::specs::Children::may_hold))]
fn push_cell<'a, T: Tables, A: Allocator + Clone>(
    walk: &mut Walk<'_, A>,
    texts: &Texts<'a, '_, T, A>,
    buffers: &mut Buffers<'a, A>,
    cell: &Cell<'a>,
) -> Result<(), AllocError>
    requires child { may_enter (still_open walk.old) GfmTableCell ≡ true }
    ensures open { OnOk result (still_open walk.new ≡ still_open walk.old) }
    ensures written { OnOk result ((ds : Targets) → KnowsTargets texts.now ds →
        WritesCellHere (reading_by T.Tables texts.now ds) (cell_view cell.now) walk.old walk.new) }
{
    walk.enter(Name::GfmTableCell)?;
    push_in_cell(walk, texts, buffers, cell)?;
    walk.exit(Name::GfmTableCell)
}

/// What a cell holds: its text, or spaces and tabs alone.
fn push_in_cell<'a, T: Tables, A: Allocator + Clone>(
    walk: &mut Walk<'_, A>,
    texts: &Texts<'a, '_, T, A>,
    buffers: &mut Buffers<'a, A>,
    cell: &Cell<'a>,
) -> Result<(), AllocError>
    requires child { may_enter (still_open walk.old) GfmTableCellText ≡ true }
    requires space { may_enter (still_open walk.old) SpaceOrTab ≡ true }
    ensures open { OnOk result (still_open walk.new ≡ still_open walk.old) }
    ensures written { OnOk result ((ds : Targets) → KnowsTargets texts.now ds →
        WritesInCellHere (reading_by T.Tables texts.now ds) (cell_view cell.now) (bytes_of (cell_view cell.now).codes) walk.old walk.new) }
{
    let text = bytes_only(cell.line.text);
    if is_blank(text.as_bytes()) {
        walk.token(Name::SpaceOrTab, text.len())
    } else {
        push_cell_text(walk, texts, buffers, cell)
    }
}

/// The text of a cell.
#[tactic(auto, using(parse_output::proofs::Classes::text_in), unfolding(parse_output::specs::Children::may_hold, parse_output::specs::Children::has_text))]
fn push_cell_text<'a, T: Tables, A: Allocator + Clone>(
    walk: &mut Walk<'_, A>,
    texts: &Texts<'a, '_, T, A>,
    buffers: &mut Buffers<'a, A>,
    cell: &Cell<'a>,
) -> Result<(), AllocError>
    requires child { may_enter (still_open walk.old) GfmTableCellText ≡ true }
    ensures open { OnOk result (still_open walk.new ≡ still_open walk.old) }
    ensures written { OnOk result ((ds : Targets) → KnowsTargets texts.now ds →
        WritesInCellHere (reading_by T.Tables texts.now ds) (cell_view cell.now) cell.now.line.text.now walk.old walk.new) }
{
    begin_text(walk, cell.line.owed);
    walk.enter(Name::GfmTableCellText)?;
    push_text(
        walk,
        texts,
        buffers,
        false,
        from_ref(&cell.line),
        cell.after,
    )?;
    walk.exit(Name::GfmTableCellText)?;
    Ok(())
}

/// The text of a cell begins here, after the columns of a tab, which are written.
fn begin_text<A: Allocator>(walk: &mut Walk<'_, A>, columns: u8)
    ensures open { still_open walk.new ≡ still_open walk.old }
    ensures stays { standing walk.new ≡ standing walk.old }
    ensures begun { BeginsLineAfter columns walk.old walk.new }
    ensures begins { (walk.new.place ≡ columns) × (walk.new.out ≡ walk.old.out) }
    ensures few { columns < 256 }
{
    walk.begin_after(columns);
}
