//! Names and digits of references, decoded.
ghost use Rattle.std.specs.Prelude.{◌≡◌, ◌++◌, [], IfOk, IfErr, IsTrue, is_some, string_bytes, unwrap_or};
ghost use Rattle.std.specs.Option.{option_copied, option_map};
ghost use Rattle.markdown_options.specs.Messages.{IsOutOfMemory};
ghost use Rattle.definition_inline.specs.CharacterReference.{number_of, numbered_text};
ghost use Rattle.inline_references.specs.Markers.{is_marker, is_radix, value_text, IsDecodable, IsNumber};

use crate::value::numeric_character;
use markdown_options::{Message, Tables};
use std::alloc::{AllocError, Allocator};

/// Returns the text of a name, if the tables have it (CommonMark 2.5).
pub fn decode_named<'a, T: Tables>(value: &str, tables: &'a T) -> Option<&'a str>
    ensures { option_copied result ≡ T.reference_of tables.now value.now }
{
    tables.reference(value)
}

/// Returns the character of a number, as a text (CommonMark 2.5). The radix is 10 or 16, and the
/// value is digits of it. A character that a text may not have becomes U+FFFD. The only error is
/// `out of memory`.
pub fn decode_numeric<A: Allocator>(alloc: A, value: &str, radix: u32) -> Result<String<A>, Message>
    requires radix { IsTrue (is_radix radix) }
    requires digits { IsNumber radix value.now }
    ensures text { IfOk result (λ text. string_bytes text ≡ numbered_text (number_of radix value.now)) }
    ensures memory { IfErr result IsOutOfMemory }
{
    let mut text = String::new(alloc);
    text.push(numeric_character(value, radix))?;
    Ok(text)
}

/// Returns the text of a value with this marker, if there is one (CommonMark 2.5). Digits always
/// have a text. A name has one if the tables have it. The only error is `out of memory`.
pub fn decode<A: Allocator, T: Tables>(
    alloc: A,
    value: &str,
    marker: u8,
    tables: &T,
) -> Result<Option<String<A>>, Message>
    requires marker { IsTrue (is_marker marker) }
    requires value { IsDecodable marker value.now }
    ensures text { IfOk result (λ text. option_map string_bytes text ≡ value_text (T.reference_of tables.now) marker value.now) }
    ensures memory { IfErr result IsOutOfMemory }
{
    let mut text = String::new(alloc);
    if push_value(&mut text, value, marker, tables)? {
        Ok(Some(text))
    } else {
        Ok(None)
    }
}

/// Appends the text of a value with this marker. Returns whether there is one (CommonMark 2.5).
pub fn push_value<A: Allocator, T: Tables>(
    out: &mut String<A>,
    value: &str,
    marker: u8,
    tables: &T,
) -> Result<bool, AllocError>
    requires marker { IsTrue (is_marker marker) }
    requires value { IsDecodable marker value.now }
    ensures known { IfOk result (λ known. known ≡ is_some (value_text (T.reference_of tables.now) marker value.now)) }
    ensures printed { IfOk result (λ _. string_bytes out.new ≡ string_bytes out.old ++ unwrap_or (value_text (T.reference_of tables.now) marker value.now) []) }
{
    match marker {
        b'x' => out.push(numeric_character(value, 16))?,
        b'#' => out.push(numeric_character(value, 10))?,
        _ => match decode_named(value, tables) {
            Some(text) => out.push_str(text)?,
            None => return Ok(false),
        },
    }
    Ok(true)
}
