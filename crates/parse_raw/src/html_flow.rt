//! HTML blocks (CommonMark 4.6).
ghost use Rattle.std.specs.Prelude.{◌≡◌, Bool, [], List, OnOk, length, true};
ghost use Rattle.parse_output.specs.Children.{holds_blocks};
ghost use Rattle.parse_lines.specs.Open.{still_open};
ghost use Rattle.definition_text.specs.BlockLines.{BlockLine};
ghost use Rattle.definition_block.specs.Tree.{Html};
ghost use Rattle.definition_page.specs.Read.{Reading};
ghost use Rattle.parse_raw.specs.Pieces.{WritesLeafPieces};
ghost use Rattle.parse_raw.specs.Reads.{WritesReadLeaf};

use crate::code_lines::push_lines;
use engine_events::event::Name;
use parse_lines::Walk;
use std::alloc::{AllocError, Allocator};

/// An HTML block of so many lines.
#[tactic(auto, using(parse_output::proofs::Classes::line_blocks), unfolding(parse_output::specs::Children::may_hold, parse_output::specs::Children::has_lines))]
pub fn push_html<A: Allocator>(walk: &mut Walk<'_, A>, count: usize) -> Result<(), AllocError>
    requires blocks { holds_blocks (still_open walk.old) ≡ true }
    ensures open { OnOk result (still_open walk.new ≡ still_open walk.old) }
    ensures written { OnOk result ((r : Reading) (first : Bool) (ls : List BlockLine) → count ≡ length ls
        → WritesReadLeaf r first (Html ls) [] walk.old walk.new) }
    ensures exact { OnOk result ((r : Reading) (first : Bool) (ls : List BlockLine) → count ≡ length ls
        → WritesLeafPieces r first (Html ls) walk.old walk.new) }
{
    walk.enter(Name::HtmlFlow)?;
    walk.all(Name::HtmlFlowData)?;
    push_lines(walk, Name::HtmlFlowData, count.saturating_sub(1))?;
    walk.exit(Name::HtmlFlow)
}
