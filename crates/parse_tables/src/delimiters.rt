//! Rows of delimiters (GFM 4.10).
//!
//!     delimiters ::= (bar | white | delimiter)*
//!     delimiter  ::= ':'? '-'+ ':'?
ghost use Rattle.std.specs.Prelude.{◌≡◌, IfOk, OnOk, true};
ghost use Rattle.parse_tables.specs.Columns.{WritesColumnHere, WritesDelimiterRow, WritesPartHere};
ghost use Rattle.engine_events.specs.declared.event.Name.TheVariants.{GfmTableCellDivider, GfmTableDelimiterCell, GfmTableDelimiterRow, SpaceOrTab};
ghost use Rattle.parse_output.specs.Children.{may_enter};
ghost use Rattle.parse_lines.specs.Open.{still_open};

use engine_events::event::Name;
use parse_lines::Walk;
use parse_lines::cut::{bytes_from, first};
use std::alloc::{AllocError, Allocator};
use text_bytes::{run, white_size};

/// A row of delimiters: the rest of the line.
#[tactic(auto, using(parse_output::proofs::Classes::enters_in), unfolding(parse_output::specs::Children::may_hold))]
pub(crate) fn push_delimiters<A: Allocator>(walk: &mut Walk<'_, A>) -> Result<(), AllocError>
    requires child { may_enter (still_open walk.old) GfmTableDelimiterRow ≡ true }
    requires space { may_enter (still_open walk.old) SpaceOrTab ≡ true }
    ensures open { OnOk result (still_open walk.new ≡ still_open walk.old) }
    ensures written { OnOk result (WritesDelimiterRow walk.old walk.new) }
{
    let mut rest = walk.white()?.as_bytes();
    walk.enter(Name::GfmTableDelimiterRow)?;
    while !rest.is_empty() {
        let size = push_part(walk, rest)?;
        rest = bytes_from(rest, size.max(1));
    }
    walk.exit(Name::GfmTableDelimiterRow)
}

/// The bar, the white space or the delimiter that bytes begin with, which come next. Answers its size.
fn push_part<A: Allocator>(walk: &mut Walk<'_, A>, bytes: &[u8]) -> Result<usize, AllocError>
    requires cell { may_enter (still_open walk.old) GfmTableDelimiterCell ≡ true }
    requires divider { may_enter (still_open walk.old) GfmTableCellDivider ≡ true }
    requires space { may_enter (still_open walk.old) SpaceOrTab ≡ true }
    ensures open { OnOk result (still_open walk.new ≡ still_open walk.old) }
    ensures written { IfOk result (λ size. WritesPartHere bytes.now size walk.old walk.new) }
{
    if first(bytes) == b'|' {
        walk.token(Name::GfmTableCellDivider, 1)?;
        return Ok(1);
    }
    let white = white_size(bytes);
    if white > 0 {
        walk.token(Name::SpaceOrTab, white)?;
        return Ok(white);
    }
    push_delimiter(walk, bytes)
}

/// The delimiter that bytes begin with. Its colons say how the column is aligned. Answers its size.
#[tactic(auto, using(parse_output::proofs::Classes::enters_in), unfolding(parse_output::specs::Children::may_hold))]
fn push_delimiter<A: Allocator>(walk: &mut Walk<'_, A>, bytes: &[u8]) -> Result<usize, AllocError>
    requires child { may_enter (still_open walk.old) GfmTableDelimiterCell ≡ true }
    ensures open { OnOk result (still_open walk.new ≡ still_open walk.old) }
    ensures written { IfOk result (λ size. WritesColumnHere bytes.now size walk.old walk.new) }
{
    walk.enter(Name::GfmTableDelimiterCell)?;
    walk.enter(Name::GfmTableDelimiterCellValue)?;
    let left = run(b':', bytes);
    walk.token(Name::GfmTableDelimiterMarker, left)?;
    let dashes = run(b'-', bytes_from(bytes, left));
    walk.token(Name::GfmTableDelimiterFiller, dashes)?;
    let size = left.saturating_add(dashes);
    let right = run(b':', bytes_from(bytes, size));
    walk.token(Name::GfmTableDelimiterMarker, right)?;
    walk.exit(Name::GfmTableDelimiterCellValue)?;
    walk.exit(Name::GfmTableDelimiterCell)?;
    Ok(size.saturating_add(right))
}
