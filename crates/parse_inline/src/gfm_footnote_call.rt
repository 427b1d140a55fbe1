//! Calls of footnotes (in neither standard).
ghost use Rattle.std.specs.Prelude.{[], ◌∷◌, ◌≡◌, List, OnOk, true, ℕ};
ghost use Rattle.definition_inline.specs.Scan.{InlineContext};
ghost use Rattle.definition_text.specs.Ascii.{caret, left_bracket};
ghost use Rattle.definition_text.specs.Content.{content_codes};
ghost use Rattle.definition_text.specs.InlineCode.{InlineCode};
ghost use Rattle.engine_events.specs.declared.event.Name.TheVariants.{GfmFootnoteCall, GfmFootnoteCallLabel};
ghost use Rattle.parse_output.specs.Children.{may_enter};
ghost use Rattle.parse_lines.specs.InContent.{IsWhole, StandsInContent, Stop};
ghost use Rattle.parse_lines.specs.Open.{still_open};
ghost use Rattle.parse_inline.specs.Rows.{WritesCall, WritesMark};
ghost use Rattle.parse_inline.specs.Texts.{StandsInText};
ghost use Rattle.parse_written.specs.Written.{AreCodes, call_codes};

use crate::label::label_end;
use crate::reading::Reading;
use engine_events::event::Name;
use markdown_options::Tables;
use parse_lines::Walk;
use parse_lines::cut::up_to;
use parse_strings::push_string;
use std::alloc::{AllocError, Allocator};

/// A call with a label.
#[tactic(auto, using(crate::proofs::Rules::in_string), unfolding(parse_output::specs::Children::may_hold, parse_output::specs::Children::has_string))]
pub(crate) fn push_call<T: Tables, A: Allocator>(
    walk: &mut Walk<'_, A>,
    reading: &Reading<'_, T>,
    label: &str,
) -> Result<(), AllocError>
    requires child { may_enter (still_open walk.old) GfmFootnoteCall ≡ true }
    ensures open { OnOk result (still_open walk.new ≡ still_open walk.old) }
    ensures written { OnOk result ((context : InlineContext) (text content : List ℕ) (from to : List InlineCode) (stop : Stop)
        → context.options.constructs ≡ reading.now.on.now → context.names ≡ T.reference_of reading.now.tables.now
        → AreCodes (call_codes (content_codes label.now)) from to → StandsInText text reading.now.content.now content from stop walk.old
        → WritesCall context text (content_codes label.now) content to stop walk.old walk.new) }
{
    walk.enter(Name::GfmFootnoteCall)?;
    walk.enter(Name::Label)?;
    call_start(walk)?;
    walk.enter(Name::LabelText)?;
    let string = up_to(reading.rest(walk.place()), label.len());
    push_string(walk, reading.on, reading.tables, string)?;
    label_end(walk)?;
    walk.exit(Name::GfmFootnoteCall)
}

/// What begins the label.
#[tactic(auto, using(parse_output::proofs::Classes::enters_in), unfolding(parse_output::specs::Children::may_hold))]
fn call_start<A: Allocator>(walk: &mut Walk<'_, A>) -> Result<(), AllocError>
    requires child { may_enter (still_open walk.old) GfmFootnoteCallLabel ≡ true }
    ensures open { OnOk result (still_open walk.new ≡ still_open walk.old) }
    ensures written { OnOk result ((text content : List ℕ) (stop : Stop) → StandsInContent text (left_bracket ∷ caret ∷ content) stop walk.old
        → IsWhole walk.old → WritesMark text GfmFootnoteCallLabel (left_bracket ∷ caret ∷ []) content stop walk.old walk.new) }
{
    walk.enter(Name::GfmFootnoteCallLabel)?;
    walk.text(Name::LabelMarker, 1)?;
    walk.text(Name::GfmFootnoteCallMarker, 1)?;
    walk.exit(Name::GfmFootnoteCallLabel)
}
