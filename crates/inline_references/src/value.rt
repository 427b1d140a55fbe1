//! The names and digits of references.
ghost use Rattle.std.specs.Prelude.{◌≡◌, IsTrue};
ghost use Rattle.std.specs.List.{prefix_len};
ghost use Rattle.definition_inline.specs.CharacterReference.{is_replaced, character_of, number_of};
ghost use Rattle.inline_references.specs.Markers.{is_marker, is_radix, is_value_byte, value_max, IsNumber};

use markdown_options::constants::{
    CHARACTER_REFERENCE_DECIMAL_SIZE_MAX, CHARACTER_REFERENCE_HEXADECIMAL_SIZE_MAX,
    CHARACTER_REFERENCE_NAMED_SIZE_MAX,
};

/// Returns how many bytes a value with this marker may have (CommonMark 2.5).
pub fn value_max(marker: u8) -> usize
    requires { IsTrue (is_marker marker) }
    ensures { result ≡ value_max marker }
{
    match marker {
        b'x' => CHARACTER_REFERENCE_HEXADECIMAL_SIZE_MAX,
        b'#' => CHARACTER_REFERENCE_DECIMAL_SIZE_MAX,
        _ => CHARACTER_REFERENCE_NAMED_SIZE_MAX,
    }
}

/// Returns whether a value with this marker may have a byte (CommonMark 2.5): for `&` a letter or
/// digit, for `#` a digit, for `x` a hexadecimal digit.
pub fn value_test(marker: u8, byte: u8) -> bool
    requires { IsTrue (is_marker marker) }
    ensures { result ≡ is_value_byte marker byte }
{
    match marker {
        b'x' => byte.is_ascii_hexdigit(),
        b'#' => byte.is_ascii_digit(),
        _ => byte.is_ascii_alphanumeric(),
    }
}

/// How many bytes of a value come first.
pub(crate) fn value_len(marker: u8, bytes: &[u8]) -> usize
    requires { IsTrue (is_marker marker) }
    ensures { result ≡ prefix_len (is_value_byte marker) bytes.now }
{
    bytes.iter().take_while(|b| value_test(marker, **b)).count()
}

/// Returns the character of a number with this radix (CommonMark 2.5). A character that a text may
/// not have becomes U+FFFD.
pub fn numeric_character(digits: &str, radix: u32) -> char
    requires radix { IsTrue (is_radix radix) }
    requires digits { IsNumber radix digits.now }
    ensures { result ≡ character_of (number_of radix digits.now) }
{
    match u32::from_str_radix(digits, radix) {
        Ok(code) => character_of(code),
        Err(_) => unreachable!(),
    }
}

/// Returns the character of a number (CommonMark 2.5). A character that a text may not have becomes
/// U+FFFD.
pub fn character_of(code: u32) -> char
    ensures { result ≡ character_of code }
{
    match char::from_u32(code) {
        Some(character) if !is_replaced(code) => character,
        _ => char::REPLACEMENT_CHARACTER,
    }
}

/// Whether U+FFFD replaces a number: a control character other than tab, line feed, form feed and
/// return, a surrogate, a noncharacter, or a number that is no code point.
fn is_replaced(code: u32) -> bool
    ensures { result ≡ is_replaced code }
{
    matches!(
        code,
        0..=8
            | 11
            | 14..=31
            | 127..=159
            | 0xD800..=0xDFFF
            | 0xFDD0..=0xFDEF
            | 0x11_0000..
    ) || code % 0x1_0000 >= 0xFFFE
}
