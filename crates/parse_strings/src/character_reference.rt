//! Character references (CommonMark 2.5).
ghost use Rattle.std.specs.Prelude.{◌≡◌, ◌+◌, ◌<◌, ◌≤◌, ◌∷◌, ◌++◌, [], IfOk, List, OnOk, false, length, slice_index, true, ℕ};
ghost use Rattle.std.specs.Char.{is_ascii_alphanumeric};
ghost use Rattle.std.specs.List.{list_all, list_any};
ghost use Rattle.engine_events.specs.declared.event.Name.TheVariants.{CharacterReference, CharacterReferenceMarkerHexadecimal, CharacterReferenceMarkerNumeric};
ghost use Rattle.markdown_options.specs.declared.configuration.Constructs.{Constructs};
ghost use Rattle.definition_text.specs.Ascii.{ampersand, semicolon};
ghost use Rattle.definition_text.specs.Lines.{ends_line};
ghost use Rattle.definition_inline.specs.CharacterReference.{Names};
ghost use Rattle.parse_output.specs.Children.{may_enter};
ghost use Rattle.parse_lines.specs.InContent.{IsWhole, StandsInContent, Stop};
ghost use Rattle.parse_lines.specs.Open.{still_open};
ghost use Rattle.parse_lines.specs.Standing.{standing};
ghost use Rattle.std.specs.List.{position_or_len};
ghost use Rattle.parse_strings.specs.References.{AreMarks, WritesMarks, is_semicolon, marked_decodes, marked_text};
ghost use Rattle.parse_strings.specs.Strings.{StandsInString, WritesNodeIn};

use engine_events::event::Name;
use parse_lines::Walk;
use parse_lines::cut::{bytes_from, first};
use std::alloc::{AllocError, Allocator};

/// A character reference that is the front of these bytes, of a size.
#[tactic(auto, using(parse_output::proofs::Classes::enters_in), unfolding(parse_output::specs::Children::may_hold))]
pub fn push_reference<A: Allocator>(
    walk: &mut Walk<'_, A>,
    bytes: &[u8],
    size: usize,
) -> Result<(), AllocError>
    requires child { may_enter (still_open walk.old) CharacterReference ≡ true }
    ensures open { OnOk result (still_open walk.new ≡ still_open walk.old) }
    ensures written { OnOk result ((on : Constructs) (names : Names) (text marks value after content : List ℕ) (first : ℕ) (stop : Stop)
        → on.character_reference ≡ true → bytes.now ≡ ampersand ∷ (marks ++ first ∷ after) → AreMarks marks first → 0 < length value → length value ≤ 31
        → list_all is_ascii_alphanumeric value ≡ true → marked_decodes names marks value ≡ true → size ≡ length marks + length value + 2
        → let front = ampersand ∷ (marks ++ (value ++ semicolon ∷ [])) in list_any ends_line front ≡ false
        → StandsInContent text (front ++ content) stop walk.old → IsWhole walk.old
        → WritesNodeIn on names text CharacterReference front (marked_text names marks value) content stop walk.old walk.new) }
{
    walk.enter(Name::CharacterReference)?;
    walk.text(Name::CharacterReferenceMarker, 1)?;
    let marker = push_markers(walk, bytes_from(bytes, 1))?;
    walk.text(
        Name::CharacterReferenceValue,
        size.saturating_sub(marker).saturating_sub(2),
    )?;
    walk.text(Name::CharacterReferenceMarkerSemi, 1)?;
    walk.exit(Name::CharacterReference)
}

/// The markers of a number. Answers their size.
fn push_markers<A: Allocator>(walk: &mut Walk<'_, A>, bytes: &[u8]) -> Result<usize, AllocError>
    requires numeric { may_enter (still_open walk.old) CharacterReferenceMarkerNumeric ≡ true }
    requires hexadecimal { may_enter (still_open walk.old) CharacterReferenceMarkerHexadecimal ≡ true }
    ensures open { OnOk result (still_open walk.new ≡ still_open walk.old) }
    ensures stays { IfOk result (λ _. standing walk.new ≡ standing walk.old) }
    ensures size { IfOk result (λ size. (marks after : List ℕ) → bytes.now ≡ marks ++ after → AreMarks marks (slice_index after 0) → size ≡ length marks) }
    ensures written { OnOk result ((text marks after line : List ℕ) → bytes.now ≡ marks ++ after → AreMarks marks (slice_index after 0)
        → StandsInString text (marks ++ line) walk.old → WritesMarks text marks line walk.old walk.new) }
{
    if first(bytes) != b'#' {
        return Ok(0);
    }
    walk.text(Name::CharacterReferenceMarkerNumeric, 1)?;
    match first(bytes_from(bytes, 1)) {
        b'x' | b'X' => {
            walk.text(Name::CharacterReferenceMarkerHexadecimal, 1)?;
            Ok(2)
        }
        _ => Ok(1),
    }
}

/// The size of a character reference: up to its semicolon.
pub fn reference_size(bytes: &[u8]) -> usize
    ensures { position_or_len is_semicolon bytes.now < length bytes.now → result ≡ position_or_len is_semicolon bytes.now + 1 }
{
    let before = before_semicolon(bytes);
    before.saturating_add(1).min(bytes.len())
}

/// How many bytes come before the first semicolon.
fn before_semicolon(bytes: &[u8]) -> usize
    ensures { result ≡ position_or_len is_semicolon bytes.now }
{
    bytes
        .iter()
        .position(|byte| *byte == b';')
        .unwrap_or(bytes.len())
}
