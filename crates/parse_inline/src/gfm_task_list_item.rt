//! Checks of task list items (GFM 5.3).
ghost use Rattle.std.specs.Prelude.{◌≡◌, ◌++◌, List, OnOk, Some, true, ℕ};
ghost use Rattle.markdown_options.specs.declared.configuration.Constructs.{Constructs as ConstructsOf};
ghost use Rattle.definition_inline.specs.CharacterReference.{Names};
ghost use Rattle.definition_inline.specs.GfmTaskListItem.{check_of};
ghost use Rattle.definition_inline.specs.Inline.{Leaf, TaskCheck};
ghost use Rattle.definition_text.specs.Content.{content_codes};
ghost use Rattle.event_meaning.specs.Texts.{part};
ghost use Rattle.inline_leaves.specs.GfmTaskListItem.{IsAfterCheck};
ghost use Rattle.parse_lines.specs.InContent.{IsWhole, StandsInContent, Stop};
ghost use Rattle.parse_inline.specs.Texts.{WritesText};
ghost use Rattle.engine_events.specs.declared.event.Name.TheVariants.{GfmTaskListItemCheck};
ghost use Rattle.parse_output.specs.Children.{holds_lines, may_enter};
ghost use Rattle.parse_inline.specs.Leaves.{check_name};
ghost use Rattle.parse_inline.specs.Checks.{IsValueOf, WritesValue};
ghost use Rattle.parse_lines.specs.Open.{still_open};

use engine_events::event::Name;
use inline_leaves::line_ending::ending_at;
use parse_lines::Walk;
use parse_lines::cut::bytes_from;
use std::alloc::{AllocError, Allocator};

/// A check that bytes begin with.
#[tactic(auto, using(crate::proofs::Rules::in_check), unfolding(parse_output::specs::Children::may_hold, parse_output::specs::Children::has_lines))]
pub fn push_check<A: Allocator>(
    walk: &mut Walk<'_, A>,
    bytes: &[u8],
    done: bool,
) -> Result<(), AllocError>
    requires child { may_enter (still_open walk.old) GfmTaskListItemCheck ≡ true }
    ensures open { OnOk result (still_open walk.new ≡ still_open walk.old) }
    ensures written { OnOk result ((on : ConstructsOf) (names : Names) (text front after : List ℕ) (stop : Stop) → bytes.now ≡ front ++ after
        → check_of (content_codes bytes.now) ≡ Some done → IsAfterCheck bytes.now after → StandsInContent text bytes.now stop walk.old → IsWhole walk.old
        → WritesText on names text front (part (Leaf (TaskCheck done))) after stop walk.old walk.new × IsWhole walk.new) }
{
    walk.enter(Name::GfmTaskListItemCheck)?;
    walk.text(Name::GfmTaskListItemMarker, 1)?;
    push_value(walk, bytes_from(bytes, 1), done)?;
    walk.text(Name::GfmTaskListItemMarker, 1)?;
    walk.exit(Name::GfmTaskListItemCheck)
}

/// What stands between the brackets, which bytes begin with: a byte, or a line ending.
fn push_value<A: Allocator>(
    walk: &mut Walk<'_, A>,
    bytes: &[u8],
    done: bool,
) -> Result<(), AllocError>
    requires child { may_enter (still_open walk.old) (check_name done) ≡ true }
    requires lines { holds_lines (still_open walk.old) ≡ true }
    ensures open { OnOk result (still_open walk.new ≡ still_open walk.old) }
    ensures written { OnOk result ((names : Names) (text value content : List ℕ) (stop : Stop) → IsValueOf done bytes.now value content
        → StandsInContent text bytes.now stop walk.old → IsWhole walk.old → WritesValue text done value content stop walk.old walk.new) }
{
    match ending_at(bytes) {
        Some(found) => walk.content_ending(value_name(done), found.size),
        None => walk.text(value_name(done), 1),
    }
}

fn value_name(done: bool) -> Name
    ensures { result ≡ check_name done }
{
    if done {
        Name::GfmTaskListItemValueChecked
    } else {
        Name::GfmTaskListItemValueUnchecked
    }
}
