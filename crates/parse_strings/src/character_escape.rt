//! Backslash escapes (CommonMark 2.4).
ghost use Rattle.std.specs.Prelude.{◌≡◌, ◌∷◌, [], List, OnOk, true, ℕ};
ghost use Rattle.std.specs.Char.{is_ascii_punctuation};
ghost use Rattle.markdown_options.specs.declared.configuration.Constructs.{Constructs};
ghost use Rattle.definition_text.specs.Ascii.{backslash};
ghost use Rattle.definition_inline.specs.CharacterReference.{Names};
ghost use Rattle.engine_events.specs.declared.event.Name.TheVariants.{CharacterEscape};
ghost use Rattle.parse_output.specs.Children.{may_enter};
ghost use Rattle.parse_lines.specs.InContent.{IsWhole, StandsInContent, Stop};
ghost use Rattle.parse_lines.specs.Open.{still_open};
ghost use Rattle.parse_strings.specs.Strings.{WritesNodeIn};

use engine_events::event::Name;
use parse_lines::Walk;
use std::alloc::{AllocError, Allocator};

/// A backslash and the byte that it escapes.
#[tactic(auto, using(parse_output::proofs::Classes::enters_in), unfolding(parse_output::specs::Children::may_hold))]
pub fn push_escape<A: Allocator>(walk: &mut Walk<'_, A>) -> Result<(), AllocError>
    requires child { may_enter (still_open walk.old) CharacterEscape ≡ true }
    ensures open { OnOk result (still_open walk.new ≡ still_open walk.old) }
    ensures written { OnOk result ((on : Constructs) (names : Names) (text content : List ℕ) (byte : ℕ) (stop : Stop) → on.character_escape ≡ true
        → is_ascii_punctuation byte ≡ true → StandsInContent text (backslash ∷ byte ∷ content) stop walk.old → IsWhole walk.old
        → WritesNodeIn on names text CharacterEscape (backslash ∷ byte ∷ []) (byte ∷ []) content stop walk.old walk.new) }
{
    walk.enter(Name::CharacterEscape)?;
    walk.text(Name::CharacterEscapeMarker, 1)?;
    walk.text(Name::CharacterEscapeValue, 1)?;
    walk.exit(Name::CharacterEscape)
}
