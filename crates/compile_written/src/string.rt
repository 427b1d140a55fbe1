//! Strings: what an info, a destination or a title spells (CommonMark 2.4 and 2.5).
//!
//!     string ::= (Data | LineEnding | CharacterEscape | CharacterReference)*
ghost use Rattle.std.specs.Prelude.{◌≡◌, ◌<◌, ◌++◌, ◌∷◌, [], MatchOption, OnOk, OnSome, string_bytes};
ghost use Rattle.definition_inline.specs.CharacterReference.{number_of, numbered_text};
ghost use Rattle.event_grammar.specs.Trees.{Nodes};
ghost use Rattle.event_meaning.specs.Strings.{string_of, written, written_byte};
ghost use Rattle.compile_written.specs.Strings.{formed, named_text, reference_text, part_text, parts_after, valid};
ghost use Rattle.compile_written.specs.Texts.{AreTexts};
ghost use Rattle.compile_written.specs.Within.{AreWithin};

use crate::character_reference::numbered;
use crate::child::{child, inside, text_first};
use engine_events::event::{Event, Kind, Name};
use markdown_options::Tables;
use std::alloc::{AllocError, Allocator};

/// How a string is appended.
#[derive(Clone, Copy)]
pub enum Form {
    /// The text that it stands for.
    Plain,
    /// A string that stands for the same text.
    Written,
}

/// Appends what a string spells. The events are those in the string, or all after its enter.
pub fn push_string<T: Tables, A: Allocator>(
    out: &mut String<A>,
    bytes: &[u8],
    tables: &T,
    events: &[Event],
) -> Result<(), AllocError>
    ensures parts { OnOk result (string_bytes out.new ≡ string_bytes out.old ++ parts_after (T.reference_of tables.now) bytes.now 0 events.now) }
    ensures spelled { (ns : Nodes) → AreWithin ns events.now → AreTexts bytes.now ns →
        OnOk result (string_bytes out.new ≡ string_bytes out.old ++ string_of (T.reference_of tables.now) bytes.now ns) }
{
    push_parts(out, Form::Plain, bytes, tables, events)?;
    Ok(())
}

/// Appends a string that stands for what a string spells: backslashes, `&` and white space are
/// references by number. The events are those in the string, or all after its enter.
pub fn push_written<T: Tables, A: Allocator>(
    out: &mut String<A>,
    bytes: &[u8],
    tables: &T,
    events: &[Event],
) -> Result<(), AllocError>
    ensures parts { OnOk result (string_bytes out.new ≡ string_bytes out.old ++ written (parts_after (T.reference_of tables.now) bytes.now 0 events.now)) }
    ensures spelled { (ns : Nodes) → AreWithin ns events.now → AreTexts bytes.now ns →
        OnOk result (string_bytes out.new ≡ string_bytes out.old ++ written (string_of (T.reference_of tables.now) bytes.now ns)) }
{
    push_parts(out, Form::Written, bytes, tables, events)?;
    Ok(())
}

/// Appends the parts of a string.
fn push_parts<T: Tables, A: Allocator>(
    out: &mut String<A>,
    form: Form,
    bytes: &[u8],
    tables: &T,
    events: &[Event],
) -> Result<(), AllocError>
    ensures { OnOk result (string_bytes out.new ≡ string_bytes out.old ++ formed form (parts_after (T.reference_of tables.now) bytes.now 0 events.now)) }
{
    let mut depth: usize = 0;
    for (index, event) in events.iter().enumerate() {
        match event.kind {
            Kind::Enter => {
                if depth == 0 {
                    push_part(out, form, bytes, tables, event.name, &events[index..])?;
                }
                depth += 1;
            }
            Kind::Exit => {
                if depth == 0 {
                    return Ok(());
                }
                depth -= 1;
            }
        }
    }
    Ok(())
}

/// Appends the part of a string that the events begin with.
fn push_part<T: Tables, A: Allocator>(
    out: &mut String<A>,
    form: Form,
    bytes: &[u8],
    tables: &T,
    name: Name,
    events: &[Event],
) -> Result<(), AllocError>
    ensures { OnOk result (string_bytes out.new ≡ string_bytes out.old ++ formed form (part_text (T.reference_of tables.now) bytes.now name events.now)) }
{
    if name == Name::Data || name == Name::LineEnding {
        push_piece(out, form, text_first(bytes, events))
    } else if name == Name::CharacterEscape {
        let value = child(inside(events), Name::CharacterEscapeValue);
        push_piece(out, form, text_first(bytes, value))
    } else if name == Name::CharacterReference {
        push_reference(out, form, bytes, tables, inside(events))
    } else {
        Ok(())
    }
}

/// Appends the text of a character reference (CommonMark 2.5). The events are those after its
/// enter.
fn push_reference<T: Tables, A: Allocator>(
    out: &mut String<A>,
    form: Form,
    bytes: &[u8],
    tables: &T,
    events: &[Event],
) -> Result<(), AllocError>
    ensures { OnOk result (string_bytes out.new ≡ string_bytes out.old ++ formed form (reference_text (T.reference_of tables.now) bytes.now events.now)) }
{
    let value = text_first(bytes, child(events, Name::CharacterReferenceValue));
    if !child(events, Name::CharacterReferenceMarkerHexadecimal).is_empty() {
        push_numbered(out, form, 16, value)
    } else if !child(events, Name::CharacterReferenceMarkerNumeric).is_empty() {
        push_numbered(out, form, 10, value)
    } else {
        push_named(out, form, tables, value)
    }
}

/// Appends the character that a number stands for.
fn push_numbered<A: Allocator>(
    out: &mut String<A>,
    form: Form,
    radix: u32,
    digits: &[u8],
) -> Result<(), AllocError>
    ensures { OnOk result (string_bytes out.new ≡ string_bytes out.old ++ formed form (numbered_text (number_of radix digits.now))) }
{
    let mut room = [0; 4];
    let text = numbered(radix, digits).encode_utf8(&mut room);
    push_formed(out, form, text)
}

/// Appends the text of a name, if the tables have it.
fn push_named<T: Tables, A: Allocator>(
    out: &mut String<A>,
    form: Form,
    tables: &T,
    name: &[u8],
) -> Result<(), AllocError>
    ensures { OnOk result (string_bytes out.new ≡ string_bytes out.old ++ formed form (named_text (T.reference_of tables.now) name.now)) }
{
    match std::str::from_utf8(name) {
        Ok(name) => match tables.reference(name) {
            Some(text) => push_formed(out, form, text),
            None => Ok(()),
        },
        Err(_) => Ok(()),
    }
}

/// Appends bytes, if they are UTF-8.
fn push_piece<A: Allocator>(out: &mut String<A>, form: Form, piece: &[u8]) -> Result<(), AllocError>
    ensures { OnOk result (string_bytes out.new ≡ string_bytes out.old ++ formed form (valid piece.now)) }
{
    match std::str::from_utf8(piece) {
        Ok(text) => push_formed(out, form, text),
        Err(_) => Ok(()),
    }
}

/// Appends a text in a form.
fn push_formed<A: Allocator>(out: &mut String<A>, form: Form, text: &str) -> Result<(), AllocError>
    ensures { OnOk result (string_bytes out.new ≡ string_bytes out.old ++ formed form text.now) }
{
    match form {
        Form::Plain => out.push_str(text),
        Form::Written => push_written_text(out, text),
    }
}

/// Appends a string that stands for a text.
pub fn push_written_text<A: Allocator>(out: &mut String<A>, text: &str) -> Result<(), AllocError>
    ensures { OnOk result (string_bytes out.new ≡ string_bytes out.old ++ written text.now) }
{
    let mut start = 0;
    for (index, byte) in text.as_bytes().iter().enumerate() {
        if let Some(reference) = told_text(*byte) {
            out.push_str(&text[start..index])?;
            out.push_str(reference)?;
            start = index + 1;
        }
    }
    out.push_str(&text[start..])
}

/// The reference that stands for a byte, if something may begin at it in a string.
fn told_text(byte: u8) -> Option<&'static str>
    ensures written { MatchOption result (written_byte byte ≡ byte ∷ []) (λ text. written_byte byte ≡ text.now) }
    ensures ascii { OnSome result (byte < 128) }
{
    match byte {
        b'\t' => Some("&#9;"),
        b'\n' => Some("&#10;"),
        b'\r' => Some("&#13;"),
        b' ' => Some("&#32;"),
        b'&' => Some("&#38;"),
        b'\\' => Some("&#92;"),
        _ => None,
    }
}
