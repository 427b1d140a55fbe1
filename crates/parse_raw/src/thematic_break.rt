//! Thematic breaks (CommonMark 4.1).
//!
//!     break ::= (marker+ white*)+, with the same marker throughout
ghost use Rattle.std.specs.Prelude.{◌≡◌, ◌<◌, ◌≤◌, Bool, [], IfOk, OnOk, drop, length, true, ℕ};
ghost use Rattle.engine_events.specs.declared.event.Name.TheVariants.{SpaceOrTab, ThematicBreakSequence};
ghost use Rattle.parse_output.specs.Children.{holds_blocks, may_enter};
ghost use Rattle.parse_lines.specs.Open.{still_open};
ghost use Rattle.definition_block.specs.Tree.{Break};
ghost use Rattle.definition_page.specs.Read.{Reading};
ghost use Rattle.parse_raw.specs.Bytes.{AreBreak};
ghost use Rattle.parse_raw.specs.Pieces.{WritesLeafPieces};
ghost use Rattle.parse_raw.specs.Reads.{WritesReadLeaf};
ghost use Rattle.parse_raw.specs.Tokens.{PassesBreakPart};

use engine_events::event::Name;
use parse_lines::Walk;
use parse_lines::cut::{bytes_from, first};
use std::alloc::{AllocError, Allocator};
use text_bytes::{run, white_size};

/// A thematic break: the rest of the line.
#[tactic(auto, using(parse_output::proofs::Classes::blocks_may, parse_output::proofs::Classes::enters_in), unfolding(parse_output::specs::Children::may_hold))]
pub fn push_thematic_break<A: Allocator>(walk: &mut Walk<'_, A>) -> Result<(), AllocError>
    requires blocks { holds_blocks (still_open walk.old) ≡ true }
    ensures open { OnOk result (still_open walk.new ≡ still_open walk.old) }
    ensures written { OnOk result ((r : Reading) (first : Bool) → WritesReadLeaf r first Break [] walk.old walk.new) }
    ensures exact { OnOk result ((r : Reading) (first : Bool) → WritesLeafPieces r first Break walk.old walk.new) }
{
    let mut rest = walk.white()?.as_bytes();
    walk.enter(Name::ThematicBreak)?;
    while !rest.is_empty() {
        let size = push_part(walk, rest)?;
        rest = bytes_from(rest, size.max(1));
    }
    walk.exit(Name::ThematicBreak)
}

/// The markers or the white space that bytes begin with, which come next. Answers their size.
fn push_part<A: Allocator>(walk: &mut Walk<'_, A>, bytes: &[u8]) -> Result<usize, AllocError>
    requires space { may_enter (still_open walk.old) SpaceOrTab ≡ true }
    requires sequence { may_enter (still_open walk.old) ThematicBreakSequence ≡ true }
    requires some { 0 < length bytes.now }
    ensures open { OnOk result (still_open walk.new ≡ still_open walk.old) }
    ensures size { IfOk result (λ size. size ≤ length bytes.now) }
    ensures some { IfOk result (λ size. 0 < length bytes.now → 0 < size) }
    ensures written { IfOk result (λ size. (marker : ℕ) → AreBreak marker bytes.now
        → PassesBreakPart bytes.now (drop size bytes.now) walk.old walk.new) }
{
    let white = white_size(bytes);
    if white > 0 {
        walk.token(Name::SpaceOrTab, white)?;
        return Ok(white);
    }
    let size = run(first(bytes), bytes);
    walk.token(Name::ThematicBreakSequence, size)?;
    Ok(size)
}
