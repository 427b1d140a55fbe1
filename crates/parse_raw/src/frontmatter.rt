//! Frontmatter (in neither standard).
//!
//!     frontmatter ::= fence line* fence
//!     fence       ::= ('-'{3} | '+'{3}) white*
ghost use Rattle.std.specs.Prelude.{◌≡◌, [], List, OnOk, length, true, ℕ};
ghost use Rattle.engine_events.specs.declared.event.Name.TheVariants.{Frontmatter, FrontmatterFence};
ghost use Rattle.parse_output.specs.Children.{holds_lines, may_enter};
ghost use Rattle.parse_lines.specs.Open.{still_open};
ghost use Rattle.definition_text.specs.Lines.{lines};
ghost use Rattle.parse_raw.specs.Bytes.{AreMetadataFence};
ghost use Rattle.parse_raw.specs.Laid.{WritesFrontLaid};
ghost use Rattle.parse_raw.specs.Tokens.{PassesEvent};

use crate::code_lines::{line_count, push_lines};
use engine_events::event::Name;
use markdown_options::constants::FRONTMATTER_SEQUENCE_SIZE;
use parse_lines::Walk;
use std::alloc::{AllocError, Allocator};

/// Frontmatter, whose lines come next: the lines of this text. The ending of the last one follows it.
#[tactic(auto, using(parse_output::proofs::Classes::line_parts), unfolding(parse_output::specs::Children::may_hold, parse_output::specs::Children::has_lines))]
pub fn push_frontmatter<A: Allocator>(walk: &mut Walk<'_, A>, text: &str) -> Result<(), AllocError>
    requires child { may_enter (still_open walk.old) Frontmatter ≡ true }
    requires lines { holds_lines (still_open walk.old) ≡ true }
    ensures open { OnOk result (still_open walk.new ≡ still_open walk.old) }
    ensures written { OnOk result (WritesFrontLaid (length (lines text.now)) walk.old walk.new) }
{
    walk.in_line()?;
    walk.enter(Name::Frontmatter)?;
    push_metadata_fence(walk)?;
    push_lines(
        walk,
        Name::FrontmatterChunk,
        line_count(text).saturating_sub(2),
    )?;
    walk.next_line()?;
    push_metadata_fence(walk)?;
    walk.exit(Name::Frontmatter)?;
    walk.ending(Name::LineEnding)
}

/// A fence: the rest of the line.
#[tactic(auto, using(parse_output::proofs::Classes::enters_in), unfolding(parse_output::specs::Children::may_hold))]
fn push_metadata_fence<A: Allocator>(walk: &mut Walk<'_, A>) -> Result<(), AllocError>
    requires child { may_enter (still_open walk.old) FrontmatterFence ≡ true }
    ensures open { OnOk result (still_open walk.new ≡ still_open walk.old) }
    ensures written { OnOk result ((bytes : List ℕ) → AreMetadataFence bytes → PassesEvent FrontmatterFence bytes [] walk.old walk.new) }
{
    walk.enter(Name::FrontmatterFence)?;
    walk.token(Name::FrontmatterSequence, FRONTMATTER_SEQUENCE_SIZE)?;
    walk.all(Name::SpaceOrTab)?;
    walk.exit(Name::FrontmatterFence)
}
