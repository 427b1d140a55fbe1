//! Events that hold no text that has rows of its own (CommonMark 2.4, 2.5, 6.1 and 6.5 to 6.8).
ghost use Rattle.std.specs.Prelude.{◌≡◌, ◌++◌, ◌∷◌, [], ℕ, OnOk, map, unwrap_or};
ghost use Rattle.std.specs.Option.{option_map};
ghost use Rattle.definition_text.specs.Content.{ending_code};
ghost use Rattle.definition_inline.specs.CharacterReference.{number_of, numbered_text};
ghost use Rattle.definition_inline.specs.Inline.{LinkTexts, Character, Escape, LineEnd};
ghost use Rattle.event_meaning.specs.Raw.{ending_of};
ghost use Rattle.event_meaning.specs.Texts.{html_data, html_piece};
ghost use Rattle.compile_written.specs.Strings.{valid};
ghost use Rattle.inline_leaves.specs.Leaves.{kind_view, parts_of};
ghost use Rattle.inline_rows.specs.InlineRows.{Part};
ghost use Rattle.inline_rows.specs.View.{data_rows, rows_view};
ghost use Rattle.compile_rows.specs.Leaves.{ending_rows, literal_kind, literal_rows, html_part_rows, value_of, has, reference_by, autolink_by};
ghost use Rattle.compile_rows.specs.Leaves.{html_after, leaf_of, leaf_rows};
ghost use Rattle.engine_events.specs.declared.event.Name.TheVariants as names;

use compile_strings::TextEvents;
use compile_strings::texts::text_of;
use compile_written::child::{child, inside, text_first};
use engine_events::event::{Event, Kind, Name};
use inline_leaves::{LeafPart, LiteralKind};
use inline_rows::InlineRow;
use markdown_options::{LineEnding, Tables};
use std::alloc::{AllocError, Allocator};
use text_lines::next_line;

/// How an event has rows that holds no text with rows of its own.
#[derive(Clone, Copy)]
pub enum LeafKind {
    /// Text as it is.
    Data,
    /// A line ending (CommonMark 6.8).
    Ending,
    /// A character after a backslash (CommonMark 2.4).
    Escape,
    /// A character reference (CommonMark 2.5).
    Reference,
    /// A URI or an address in angle brackets (CommonMark 6.5).
    Autolink,
    /// Raw HTML (CommonMark 6.6).
    Html,
    /// A hard line break by a backslash (CommonMark 6.7).
    EscapedBreak,
    /// A hard line break by spaces (CommonMark 6.7).
    TrailingBreak,
    /// A literal (GFM 6.9), or no rows.
    Other,
}

/// Adds the rows of the event that the events begin with: data, an escape, a character reference, an
/// autolink, a literal, raw HTML, a hard line break or a line ending. Other events have none.
pub(crate) fn push_leaf<'a, T: Tables, A: Allocator + Clone>(
    rows: &mut Vec<InlineRow<'a>, A>,
    texts: &TextEvents<'a, T, A>,
    linked: bool,
    name: Name,
    events: &[Event],
) -> Result<(), AllocError>
    ensures { (at : ℕ → LinkTexts) → OnOk result (rows_view at rows.new.items
        ≡ rows_view at rows.old.items ++ leaf_rows (T.reference_of texts.now.tables.now) texts.now.bytes.now linked name events.now) }
{
    match leaf_of(name) {
        LeafKind::Data => push_text(rows, text_first(texts.bytes, events)),
        LeafKind::Ending => push_ending(rows, text_first(texts.bytes, events)),
        LeafKind::Escape => push_escape(rows, texts.bytes, inside(events)),
        LeafKind::Reference => push_reference(rows, texts, inside(events)),
        LeafKind::Autolink => push_autolink(rows, texts.bytes, inside(events)),
        LeafKind::Html => push_html(rows, texts.bytes, inside(events)),
        LeafKind::EscapedBreak => push_part(rows, LeafPart::EscapedBreak),
        LeafKind::TrailingBreak => push_part(rows, LeafPart::TrailingBreak),
        LeafKind::Other => push_literal(rows, linked, name, text_first(texts.bytes, events)),
    }
}

/// The kind of the event with a name.
fn leaf_of(name: Name) -> LeafKind
    ensures { result ≡ leaf_of name }
{
    if name == Name::Data {
        LeafKind::Data
    } else if name == Name::LineEnding {
        LeafKind::Ending
    } else if name == Name::CharacterEscape {
        LeafKind::Escape
    } else if name == Name::CharacterReference {
        LeafKind::Reference
    } else if name == Name::Autolink {
        LeafKind::Autolink
    } else if name == Name::HtmlText {
        LeafKind::Html
    } else if name == Name::HardBreakEscape {
        LeafKind::EscapedBreak
    } else if name == Name::HardBreakTrailing {
        LeafKind::TrailingBreak
    } else {
        LeafKind::Other
    }
}

/// Adds a construct that holds no other.
fn push_part<'a, A: Allocator>(
    rows: &mut Vec<InlineRow<'a>, A>,
    part: LeafPart<'a>,
) -> Result<(), AllocError>
    ensures { (at : ℕ → LinkTexts) → OnOk result (rows_view at rows.new.items ≡ rows_view at rows.old.items ++ map Part (parts_of part.entry)) }
{
    rows.push(InlineRow::Leaf(part))?;
    Ok(())
}

/// Adds a text.
fn push_text<'a, A: Allocator>(
    rows: &mut Vec<InlineRow<'a>, A>,
    piece: &'a [u8],
) -> Result<(), AllocError>
    ensures { (at : ℕ → LinkTexts) → OnOk result (rows_view at rows.new.items ≡ rows_view at rows.old.items ++ data_rows (valid piece.now)) }
{
    rows.push(InlineRow::Text(text_of(piece)))?;
    Ok(())
}

/// Adds a line ending (CommonMark 6.8).
fn push_ending<A: Allocator>(
    rows: &mut Vec<InlineRow<'_>, A>,
    piece: &[u8],
) -> Result<(), AllocError>
    ensures { (at : ℕ → LinkTexts) → OnOk result (rows_view at rows.new.items ≡ rows_view at rows.old.items ++ ending_rows piece.now) }
{
    push_part(rows, LeafPart::LineEnd(ending_of(piece)))
}

/// The line ending of these bytes.
fn ending_of(piece: &[u8]) -> LineEnding
    ensures { result ≡ ending_of piece.now }
{
    match piece {
        [] => LineEnding::LineFeed,
        [byte] => {
            if *byte == b'\r' {
                LineEnding::CarriageReturn
            } else {
                LineEnding::LineFeed
            }
        }
        _ => LineEnding::CarriageReturnLineFeed,
    }
}

/// Adds the byte that a backslash escapes (CommonMark 2.4). The events are those after the enter of
/// the escape.
fn push_escape<'a, A: Allocator>(
    rows: &mut Vec<InlineRow<'a>, A>,
    bytes: &'a [u8],
    events: &[Event],
) -> Result<(), AllocError>
    ensures { (at : ℕ → LinkTexts) → OnOk result (rows_view at rows.new.items
        ≡ rows_view at rows.old.items ++ map Part (map Escape (value_of bytes.now names.CharacterEscapeValue events.now))) }
{
    let value = value_of(bytes, events, Name::CharacterEscapeValue);
    push_part(rows, LeafPart::Escape(value))
}

/// Adds a character reference (CommonMark 2.5). The events are those after its enter.
fn push_reference<'a, T: Tables, A: Allocator + Clone>(
    rows: &mut Vec<InlineRow<'a>, A>,
    texts: &TextEvents<'a, T, A>,
    events: &[Event],
) -> Result<(), AllocError>
    ensures { (at : ℕ → LinkTexts) → OnOk result (rows_view at rows.new.items
        ≡ rows_view at rows.old.items ++ Part (Character (reference_by (T.reference_of texts.now.tables.now) texts.now.bytes.now events.now)) ∷ []) }
{
    let value = value_of(texts.bytes, events, Name::CharacterReferenceValue);
    if has(events, Name::CharacterReferenceMarkerHexadecimal) {
        push_number(rows, 16, value)
    } else if has(events, Name::CharacterReferenceMarkerNumeric) {
        push_number(rows, 10, value)
    } else {
        push_part(rows, LeafPart::Character(named_text(texts.tables, value)))
    }
}

/// Adds a character by its number.
fn push_number<'a, A: Allocator>(
    rows: &mut Vec<InlineRow<'a>, A>,
    radix: u32,
    digits: &'a str,
) -> Result<(), AllocError>
    ensures { (at : ℕ → LinkTexts) → OnOk result (rows_view at rows.new.items
        ≡ rows_view at rows.old.items ++ Part (Character (numbered_text (number_of radix digits.now))) ∷ []) }
{
    push_part(rows, LeafPart::Number { radix, digits })
}

/// The text of a name, or none if the tables don't have it.
fn named_text<'a, T: Tables>(tables: &'a T, name: &str) -> &'a str
    ensures { result.now ≡ unwrap_or (T.reference_of tables.now name.now) [] }
{
    match tables.reference(name) {
        Some(text) => text,
        None => "",
    }
}

/// Adds an autolink (CommonMark 6.5). The events are those after its enter.
fn push_autolink<'a, A: Allocator>(
    rows: &mut Vec<InlineRow<'a>, A>,
    bytes: &'a [u8],
    events: &[Event],
) -> Result<(), AllocError>
    ensures { (at : ℕ → LinkTexts) → OnOk result (rows_view at rows.new.items ≡ rows_view at rows.old.items ++ Part (autolink_by bytes.now events.now) ∷ []) }
{
    if has(events, Name::AutolinkEmail) {
        let text = value_of(bytes, events, Name::AutolinkEmail);
        push_part(rows, LeafPart::Autolink { email: true, text })
    } else {
        let text = value_of(bytes, events, Name::AutolinkProtocol);
        push_part(rows, LeafPart::Autolink { email: false, text })
    }
}

/// The text of the first child of a name. The events are those after the parent's enter.
fn value_of<'a>(bytes: &'a [u8], events: &[Event], name: Name) -> &'a str
    ensures { result.now ≡ value_of bytes.now name events.now }
{
    text_of(text_first(bytes, child(events, name)))
}

/// Whether there is a child of a name. The events are those after the parent's enter.
pub(crate) fn has(events: &[Event], name: Name) -> bool
    ensures { result ≡ has name events.now }
{
    !child(events, name).is_empty()
}

/// Adds a literal (GFM 6.9), which is text in a link. Other names have no rows.
fn push_literal<'a, A: Allocator>(
    rows: &mut Vec<InlineRow<'a>, A>,
    linked: bool,
    name: Name,
    piece: &'a [u8],
) -> Result<(), AllocError>
    ensures { (at : ℕ → LinkTexts) → OnOk result (rows_view at rows.new.items
        ≡ rows_view at rows.old.items ++ literal_rows linked (literal_kind name) (valid piece.now)) }
{
    let Some(kind) = literal_kind(name) else {
        return Ok(());
    };
    let text = text_of(piece);
    if linked {
        rows.push(InlineRow::Text(text))?;
        Ok(())
    } else {
        push_part(rows, LeafPart::Literal { kind, text })
    }
}

/// What a literal of this name leads to (GFM 6.9).
fn literal_kind(name: Name) -> Option<LiteralKind>
    ensures { option_map kind_view result ≡ literal_kind name }
{
    if name == Name::GfmAutolinkLiteralWww {
        Some(LiteralKind::Www)
    } else if name == Name::GfmAutolinkLiteralEmail {
        Some(LiteralKind::Email)
    } else if name == Name::GfmAutolinkLiteralMailto
        || name == Name::GfmAutolinkLiteralProtocol
        || name == Name::GfmAutolinkLiteralXmpp
    {
        Some(LiteralKind::Protocol)
    } else {
        None
    }
}

/// Adds raw HTML, lines and line endings each by itself (CommonMark 6.6). The events are those after
/// its enter.
fn push_html<'a, A: Allocator>(
    rows: &mut Vec<InlineRow<'a>, A>,
    bytes: &'a [u8],
    events: &[Event],
) -> Result<(), AllocError>
    ensures { (at : ℕ → LinkTexts) → OnOk result (rows_view at rows.new.items ≡ rows_view at rows.old.items ++ html_after bytes.now 0 events.now) }
{
    let mut depth: usize = 0;
    for (index, event) in events.iter().enumerate() {
        match event.kind {
            Kind::Enter => {
                if depth == 0 {
                    push_html_part(rows, event.name, text_first(bytes, &events[index..]))?;
                }
                depth += 1;
            }
            Kind::Exit => {
                if depth == 0 {
                    return Ok(());
                }
                depth -= 1;
            }
        }
    }
    Ok(())
}

/// Adds a part of raw HTML by its name and bytes.
fn push_html_part<'a, A: Allocator>(
    rows: &mut Vec<InlineRow<'a>, A>,
    name: Name,
    piece: &'a [u8],
) -> Result<(), AllocError>
    ensures { (at : ℕ → LinkTexts) → OnOk result (rows_view at rows.new.items ≡ rows_view at rows.old.items ++ html_part_rows name piece.now) }
{
    if name == Name::HtmlTextData {
        push_html_data(rows, text_of(piece))
    } else if name == Name::LineEnding {
        push_ending(rows, piece)
    } else {
        Ok(())
    }
}

/// Adds data of raw HTML, each line with all its bytes (CommonMark 6.6).
fn push_html_data<'a, A: Allocator>(
    rows: &mut Vec<InlineRow<'a>, A>,
    html: &'a str,
) -> Result<(), AllocError>
    ensures { (at : ℕ → LinkTexts) → OnOk result (rows_view at rows.new.items ≡ rows_view at rows.old.items ++ map Part (html_data html.now)) }
{
    let mut rest = html;
    while !rest.is_empty() {
        let (line, ending, after) = next_line(rest);
        push_html_piece(rows, line)?;
        push_if_ending(rows, ending)?;
        rest = after;
    }
    Ok(())
}

/// Adds a piece of raw HTML, if it isn't empty.
fn push_html_piece<'a, A: Allocator>(
    rows: &mut Vec<InlineRow<'a>, A>,
    piece: &'a str,
) -> Result<(), AllocError>
    ensures { (at : ℕ → LinkTexts) → OnOk result (rows_view at rows.new.items ≡ rows_view at rows.old.items ++ map Part (html_piece piece.now)) }
{
    if piece.is_empty() {
        return Ok(());
    }
    push_part(rows, LeafPart::Html(piece))
}

/// Adds a line ending, if there is one.
fn push_if_ending<A: Allocator>(
    rows: &mut Vec<InlineRow<'_>, A>,
    ending: Option<LineEnding>,
) -> Result<(), AllocError>
    ensures { (at : ℕ → LinkTexts) → OnOk result (rows_view at rows.new.items
        ≡ rows_view at rows.old.items ++ map Part (map LineEnd (ending_code ending))) }
{
    match ending {
        Some(ending) => push_part(rows, LeafPart::LineEnd(ending)),
        None => Ok(()),
    }
}
