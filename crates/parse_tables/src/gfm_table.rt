//! Tables (GFM 4.10).
//!
//!     table ::= head delimiters row*
ghost use Rattle.std.specs.Prelude.{◌≡◌, Bool, OnOk, [], true};
ghost use Rattle.engine_events.specs.declared.event.Name.TheVariants.{GfmTableBody, GfmTableHead, GfmTableRow};
ghost use Rattle.parse_output.specs.Children.{holds_blocks, holds_lines, may_enter};
ghost use Rattle.parse_lines.specs.Open.{still_open};
ghost use Rattle.definition_inline.specs.Targets.{Targets};
ghost use Rattle.definition_text.specs.BlockLines.{own_lines};
ghost use Rattle.definition_block.specs.Tree.{Table};
ghost use Rattle.text_pieces.specs.Pieces.{piece_line, piece_lines};
ghost use Rattle.parse_raw.specs.Reads.{WritesReadLeaf};
ghost use Rattle.parse_leaves.specs.Texts.{KnowsTargets, reading_by};
ghost use Rattle.parse_tables.specs.Rows.{WritesFirstRowsHere, WritesNextRowHere};
ghost use Rattle.parse_tables.specs.Tables.{WritesBodyHere, WritesHeadHere};

use crate::cells::push_row;
use crate::delimiters::push_delimiters;
use engine_events::event::Name;
use markdown_options::Tables;
use parse_leaves::Buffers;
use parse_lines::Walk;
use parse_raw::Texts;
use std::alloc::{AllocError, Allocator};
use text_pieces::Piece;

/// A table of these lines, the first of which is begun: its head, its row of delimiters, and the rows of
/// its body. Fewer than two lines are none.
#[tactic(auto, using(parse_output::proofs::Classes::line_blocks), unfolding(parse_output::specs::Children::may_hold, parse_output::specs::Children::has_lines))]
pub fn push_table<'a, T: Tables, A: Allocator + Clone>(
    walk: &mut Walk<'_, A>,
    texts: &Texts<'a, '_, T, A>,
    buffers: &mut Buffers<'a, A>,
    lines: &[Piece<'a>],
) -> Result<(), AllocError>
    requires blocks { holds_blocks (still_open walk.old) ≡ true }
    ensures open { OnOk result (still_open walk.new ≡ still_open walk.old) }
    ensures written { OnOk result ((ds : Targets) → KnowsTargets texts.now ds → (first : Bool)
        → WritesReadLeaf (reading_by T.Tables texts.now ds) first (Table (own_lines (piece_lines lines.now))) [] walk.old walk.new) }
{
    let [head, _, rows @ ..] = lines else {
        return Ok(());
    };
    walk.enter(Name::GfmTable)?;
    push_head(walk, texts, buffers, *head)?;
    push_body(walk, texts, buffers, rows)?;
    walk.exit(Name::GfmTable)
}

/// The head, and the row of delimiters on the next line.
#[tactic(auto, using(parse_output::proofs::Classes::enters_in, parse_output::proofs::Classes::lines_in), unfolding(parse_output::specs::Children::may_hold, parse_output::specs::Children::has_lines))]
fn push_head<'a, T: Tables, A: Allocator + Clone>(
    walk: &mut Walk<'_, A>,
    texts: &Texts<'a, '_, T, A>,
    buffers: &mut Buffers<'a, A>,
    head: Piece<'a>,
) -> Result<(), AllocError>
    requires child { may_enter (still_open walk.old) GfmTableHead ≡ true }
    ensures open { OnOk result (still_open walk.new ≡ still_open walk.old) }
    ensures written { OnOk result ((ds : Targets) → KnowsTargets texts.now ds
        → WritesHeadHere (reading_by T.Tables texts.now ds) (piece_line head.entry) walk.old walk.new) }
{
    walk.enter(Name::GfmTableHead)?;
    push_row(walk, texts, buffers, head)?;
    walk.next_line()?;
    push_delimiters(walk)?;
    walk.exit(Name::GfmTableHead)
}

/// The rows of the body, if there are any, after the ending of the row of delimiters.
#[tactic(auto, using(parse_output::proofs::Classes::enters_in, parse_output::proofs::Classes::lines_in), unfolding(parse_output::specs::Children::may_hold, parse_output::specs::Children::has_lines))]
fn push_body<'a, T: Tables, A: Allocator + Clone>(
    walk: &mut Walk<'_, A>,
    texts: &Texts<'a, '_, T, A>,
    buffers: &mut Buffers<'a, A>,
    rows: &[Piece<'a>],
) -> Result<(), AllocError>
    requires child { may_enter (still_open walk.old) GfmTableBody ≡ true }
    requires lines { holds_lines (still_open walk.old) ≡ true }
    ensures open { OnOk result (still_open walk.new ≡ still_open walk.old) }
    ensures written { OnOk result ((ds : Targets) → KnowsTargets texts.now ds
        → WritesBodyHere (reading_by T.Tables texts.now ds) (piece_lines rows.now) walk.old walk.new) }
{
    let [row, others @ ..] = rows else {
        return Ok(());
    };
    walk.next_line()?;
    walk.enter(Name::GfmTableBody)?;
    push_row(walk, texts, buffers, *row)?;
    push_next_rows(walk, texts, buffers, others)?;
    walk.exit(Name::GfmTableBody)
}

/// Rows on the lines after the one that is written.
fn push_next_rows<'a, T: Tables, A: Allocator + Clone>(
    walk: &mut Walk<'_, A>,
    texts: &Texts<'a, '_, T, A>,
    buffers: &mut Buffers<'a, A>,
    rows: &[Piece<'a>],
) -> Result<(), AllocError>
    requires child { may_enter (still_open walk.old) GfmTableRow ≡ true }
    requires lines { holds_lines (still_open walk.old) ≡ true }
    ensures open { OnOk result (still_open walk.new ≡ still_open walk.old) }
    ensures written { OnOk result ((ds : Targets) → KnowsTargets texts.now ds
        → WritesFirstRowsHere (reading_by T.Tables texts.now ds) (piece_lines rows.now) [] walk.old walk.new) }
{
    for row in rows {
        push_next_row(walk, texts, buffers, *row)?;
    }
    Ok(())
}

/// The ending of the line, and the row of the next one.
fn push_next_row<'a, T: Tables, A: Allocator + Clone>(
    walk: &mut Walk<'_, A>,
    texts: &Texts<'a, '_, T, A>,
    buffers: &mut Buffers<'a, A>,
    row: Piece<'a>,
) -> Result<(), AllocError>
    requires child { may_enter (still_open walk.old) GfmTableRow ≡ true }
    requires lines { holds_lines (still_open walk.old) ≡ true }
    ensures open { OnOk result (still_open walk.new ≡ still_open walk.old) }
    ensures written { OnOk result ((ds : Targets) → KnowsTargets texts.now ds
        → WritesNextRowHere (reading_by T.Tables texts.now ds) (piece_line row.entry) walk.old walk.new) }
{
    walk.next_line()?;
    push_row(walk, texts, buffers, row)
}
