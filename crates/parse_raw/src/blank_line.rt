//! Blank lines (CommonMark 4.9).
ghost use Rattle.std.specs.Prelude.{◌≡◌, OnOk, true};
ghost use Rattle.parse_output.specs.Children.{holds_lines};
ghost use Rattle.parse_lines.specs.Ends.{line_after};
ghost use Rattle.parse_lines.specs.Open.{still_open};
ghost use Rattle.definition_page.specs.Read.{Reading};
ghost use Rattle.parse_raw.specs.Laid.{WritesBlankLaid};
ghost use Rattle.parse_raw.specs.Pieces.{WritesBlankPieces};

use engine_events::event::Name;
use parse_lines::Walk;
use std::alloc::{AllocError, Allocator};

/// A blank line with its ending, if it has one. It begins unless it is begun.
#[tactic(auto, using(parse_output::proofs::Classes::lines_may))]
pub fn push_blank_line<A: Allocator>(walk: &mut Walk<'_, A>) -> Result<(), AllocError>
    requires lines { holds_lines (still_open walk.old) ≡ true }
    ensures open { OnOk result (still_open walk.new ≡ still_open walk.old) }
    ensures written { OnOk result (WritesBlankLaid walk.old walk.new) }
    ensures exact { OnOk result ((r : Reading) → WritesBlankPieces r walk.old walk.new) }
    ensures after { walk.old.is_in_line ≡ true → OnOk result (line_after walk.new ≡ line_after walk.old) }
{
    walk.in_line()?;
    walk.all(Name::SpaceOrTab)?;
    walk.ending(Name::BlankLineEnding)
}
