//! Constructs that hold no other (CommonMark 2.4, 2.5, 6.1 and 6.5 to 6.8).
ghost use Rattle.std.specs.Prelude.{◌≡◌, ◌<◌, ◌++◌, ◌∷◌, [], List, OnOk, drop, false, length, map, slice_index, true, ℕ};
ghost use Rattle.std.specs.Char.{is_ascii_punctuation};
ghost use Rattle.std.specs.List.{list_all, list_any};
ghost use Rattle.std.specs.Str.{IsUtf8};
ghost use Rattle.markdown_options.specs.declared.configuration.Constructs.{Constructs};
ghost use Rattle.markdown_options.specs.LineEndings.{ending_bytes};
ghost use Rattle.markdown_options.specs.declared.line_ending.LineEnding.{LineEnding};
ghost use Rattle.definition_text.specs.Ascii.{greater_than, less_than};
ghost use Rattle.definition_text.specs.Columns.{bare, indent};
ghost use Rattle.definition_text.specs.Content.{content_codes, line_ending_code};
ghost use Rattle.definition_text.specs.InlineCode.{InlineCode};
ghost use Rattle.definition_text.specs.Lines.{ends_line};
ghost use Rattle.definition_inline.specs.CharacterReference.{Names};
ghost use Rattle.definition_inline.specs.Inline as inline;
ghost use Rattle.definition_inline.specs.Inline.{Character, Escape, LineEnd};
ghost use Rattle.definition_inline.specs.Scan.{InlineContext};
ghost use Rattle.engine_events.specs.declared.event.Name.TheVariants.{Autolink, CharacterEscape, CharacterReference, HtmlText};
ghost use Rattle.parse_output.specs.Children.{holds_lines, holds_text, may_enter, may_hold};
ghost use Rattle.parse_inline.specs.Leaves.{Anywhere, WritesFront, WritesLeaves, WritesPart, WritesSpelled, address_name, in_angles, line_end};
ghost use Rattle.parse_inline.specs.Lines.{AreCutBetween};
ghost use Rattle.parse_lines.specs.InContent.{IsApart, IsWhole, StandsInContent, Stop};
ghost use Rattle.parse_lines.specs.Open.{still_open};
ghost use Rattle.inline_rows.specs.View.{spelled_view};
ghost use Rattle.parse_alike.specs.HtmlText.{html_leaves};
ghost use Rattle.parse_written.specs.Bytes.{AreBytesAt};
ghost use Rattle.parse_written.specs.Parts.{escaped};
ghost use Rattle.parse_written.specs.Rows.{IsPartLaid};
ghost use Rattle.parse_written.specs.Laid.{IsLeafLaid};
ghost use Rattle.parse_written.specs.Leaves.{IsReference, is_target};

use crate::code_text::{CODE, MATH, push_raw};
use crate::gfm_autolink_literal::literal_name;
use crate::lines::push_lines;
use crate::reading::Reading;
use engine_events::event::Name;
use inline_leaves::LeafPart;
use inline_rows::SpelledLeaf;
use parse_lines::Walk;
use parse_lines::cut::{bytes_from, bytes_up_to};
use parse_strings::character_escape::push_escape;
use parse_strings::character_reference::{push_reference, reference_size};
use std::alloc::{AllocError, Allocator};
use text_bytes::white_size;

/// A construct that comes next in a content.
#[tactic(auto, using(crate::proofs::Rules::in_text), unfolding(parse_output::specs::Children::may_hold, parse_output::specs::Children::has_lines))]
pub(crate) fn push_leaf<T, A: Allocator>(
    walk: &mut Walk<'_, A>,
    reading: &Reading<'_, T>,
    part: LeafPart<'_>,
) -> Result<(), AllocError>
    requires text { holds_text (still_open walk.old) ≡ true }
    ensures open { OnOk result (still_open walk.new ≡ still_open walk.old) }
    ensures written { OnOk result ((context : InlineContext) (text bytes : List ℕ) (from to : List InlineCode) (stop : Stop)
        → bytes ≡ drop walk.old.place reading.now.content.now → IsPartLaid context part.entry from to → AreBytesAt bytes from
        → StandsInContent text bytes stop walk.old → IsWhole walk.old
        → WritesPart context.options.constructs context.names text bytes part.entry to stop walk.old walk.new) }
{
    let bytes = bytes_from(reading.content.as_bytes(), walk.place());
    match part {
        LeafPart::Escape(text) => push_escapes(walk, text.len()),
        LeafPart::Character(_) => push_character(walk, bytes),
        LeafPart::Number { .. } => push_character(walk, bytes),
        LeafPart::Code(_) => push_raw(walk, &CODE, bytes),
        LeafPart::Math(_) => push_raw(walk, &MATH, bytes),
        LeafPart::Unclosed(text) => walk.data(text.as_bytes().len()),
        LeafPart::Autolink { email, text } => push_autolink(walk, email, text.as_bytes().len()),
        LeafPart::Literal { kind, text } => {
            walk.text(literal_name(kind, text.as_bytes()), text.len())
        }
        LeafPart::Html(text) => push_html(walk, bytes_up_to(bytes, text.as_bytes().len())),
        LeafPart::EscapedBreak => walk.text(Name::HardBreakEscape, 1),
        LeafPart::TrailingBreak => walk.text(Name::HardBreakTrailing, white_size(bytes)),
        LeafPart::LineEnd(ending) => push_line_end(walk, bytes, ending.as_str().len()),
        // What ends the line writes them.
        LeafPart::Spaces => Ok(()),
    }
}

/// A construct as a list of events spells it, which is read again like any other.
#[tactic(auto, using(crate::proofs::Rules::in_text), unfolding(parse_output::specs::Children::may_hold, parse_output::specs::Children::has_lines))]
pub(crate) fn push_spelled<T, A: Allocator>(
    walk: &mut Walk<'_, A>,
    reading: &Reading<'_, T>,
    leaf: SpelledLeaf<'_>,
) -> Result<(), AllocError>
    requires text { holds_text (still_open walk.old) ≡ true }
    ensures open { OnOk result (still_open walk.new ≡ still_open walk.old) }
    ensures written { OnOk result ((context : InlineContext) (text bytes : List ℕ) (from to : List InlineCode) (stop : Stop)
        → bytes ≡ drop walk.old.place reading.now.content.now → IsLeafLaid context (spelled_view leaf.entry) from to → AreBytesAt bytes from
        → StandsInContent text bytes stop walk.old → IsWhole walk.old
        → WritesSpelled context.options.constructs context.names text bytes leaf.entry to stop walk.old walk.new) }
{
    let bytes = bytes_from(reading.content.as_bytes(), walk.place());
    match leaf {
        SpelledLeaf::Code(_) => push_raw(walk, &CODE, bytes),
        SpelledLeaf::Math(_) => push_raw(walk, &MATH, bytes),
        // No content has a check.
        SpelledLeaf::Check(_) => Ok(()),
    }
}

/// Escapes, so many.
fn push_escapes<A: Allocator>(walk: &mut Walk<'_, A>, count: usize) -> Result<(), AllocError>
    requires child { may_enter (still_open walk.old) CharacterEscape ≡ true }
    ensures open { OnOk result (still_open walk.new ≡ still_open walk.old) }
    ensures written { OnOk result ((on : Constructs) (names : Names) (text front content : List ℕ) (stop : Stop) → count ≡ length front
        → (0 < length front → on.character_escape ≡ true) → list_all is_ascii_punctuation front ≡ true
        → StandsInContent text (escaped front ++ content) stop walk.old → IsWhole walk.old
        → WritesFront on names text (escaped front) content Anywhere (map Escape front) stop walk.old walk.new) }
{
    for _done in 0..count {
        push_escape(walk)?;
    }
    Ok(())
}

/// A character reference that bytes begin with, up to its semicolon.
fn push_character<A: Allocator>(walk: &mut Walk<'_, A>, bytes: &[u8]) -> Result<(), AllocError>
    requires child { may_enter (still_open walk.old) CharacterReference ≡ true }
    ensures open { OnOk result (still_open walk.new ≡ still_open walk.old) }
    ensures written { OnOk result ((context : InlineContext) (text printed : List ℕ) (from to : List InlineCode) (stop : Stop)
        → context.options.constructs.character_reference ≡ true → IsReference context printed from to → AreBytesAt bytes.now from → StandsInContent text bytes.now stop walk.old → IsWhole walk.old
        → WritesLeaves context.options.constructs context.names text bytes.now Anywhere (Character printed ∷ []) to stop walk.old walk.new) }
{
    push_reference(walk, bytes, reference_size(bytes))
}

/// An autolink of a URI or an address of a size (CommonMark 6.5).
#[tactic(auto, using(parse_output::proofs::Classes::enters_in), unfolding(parse_output::specs::Children::may_hold))]
fn push_autolink<A: Allocator>(
    walk: &mut Walk<'_, A>,
    email: bool,
    size: usize,
) -> Result<(), AllocError>
    requires child { may_enter (still_open walk.old) Autolink ≡ true }
    ensures open { OnOk result (still_open walk.new ≡ still_open walk.old) }
    ensures written { OnOk result ((on : Constructs) (names : Names) (text address content : List ℕ) (stop : Stop) → size ≡ length address → 0 < length address
        → list_any ends_line address ≡ false → is_target email address ≡ true → IsUtf8 address
        → StandsInContent text (in_angles address ++ content) stop walk.old → IsWhole walk.old
        → WritesFront on names text (in_angles address) content Anywhere (inline.Autolink email address ∷ []) stop walk.old walk.new) }
{
    walk.enter(Name::Autolink)?;
    walk.text(Name::AutolinkMarker, 1)?;
    walk.text(address_name(email), size)?;
    walk.text(Name::AutolinkMarker, 1)?;
    walk.exit(Name::Autolink)
}

/// The name of an address or a URI.
#[tactic(auto, unfolding(parse_output::specs::Children::may_hold))]
fn address_name(email: bool) -> Name
    ensures is { result ≡ address_name email }
    ensures holds { may_hold Autolink result ≡ true }
{
    if email {
        Name::AutolinkEmail
    } else {
        Name::AutolinkProtocol
    }
}

/// Raw HTML (CommonMark 6.6).
#[tactic(auto, using(crate::proofs::Rules::in_lines), unfolding(parse_output::specs::Children::may_hold, parse_output::specs::Children::has_lines))]
fn push_html<A: Allocator>(walk: &mut Walk<'_, A>, bytes: &[u8]) -> Result<(), AllocError>
    requires child { may_enter (still_open walk.old) HtmlText ≡ true }
    ensures open { OnOk result (still_open walk.new ≡ still_open walk.old) }
    ensures written { OnOk result ((on : Constructs) (names : Names) (text front content : List ℕ) (stop : Stop) → on.html_text ≡ true
        → bytes.now ≡ front ++ greater_than ∷ [] → slice_index bytes.now 0 ≡ less_than → IsUtf8 bytes.now → AreCutBetween bytes.now content
        → StandsInContent text (bytes.now ++ content) stop walk.old → IsWhole walk.old
        → WritesFront on names text bytes.now content Anywhere (html_leaves (content_codes bytes.now)) stop walk.old walk.new) }
{
    walk.enter(Name::HtmlText)?;
    push_lines(walk, Name::HtmlTextData, bytes, true)?;
    walk.exit(Name::HtmlText)
}

/// A line ending of a size, with the spaces and tabs around it (CommonMark 6.8). Those before it are
/// found here, since not all rows have a row for them.
#[tactic(auto, using(parse_output::proofs::Classes::lines_may))]
fn push_line_end<A: Allocator>(
    walk: &mut Walk<'_, A>,
    bytes: &[u8],
    size: usize,
) -> Result<(), AllocError>
    requires lines { holds_lines (still_open walk.old) ≡ true }
    ensures open { OnOk result (still_open walk.new ≡ still_open walk.old) }
    ensures written { OnOk result ((on : Constructs) (names : Names) (text rest : List ℕ) (ending : LineEnding) (stop : Stop) → size ≡ length (ending_bytes ending)
        → drop (indent bytes.now) bytes.now ≡ ending_bytes ending ++ rest → IsApart ending rest → StandsInContent text bytes.now stop walk.old → IsWhole walk.old
        → WritesFront on names text (line_end bytes.now ending rest) (bare rest) Anywhere (LineEnd (line_ending_code ending) ∷ []) stop walk.old walk.new) }
{
    let before = white_size(bytes);
    walk.text(Name::SpaceOrTab, before)?;
    walk.content_ending(Name::LineEnding, size)?;
    let after = bytes_from(bytes_from(bytes, before), size);
    walk.text(Name::SpaceOrTab, white_size(after))
}
