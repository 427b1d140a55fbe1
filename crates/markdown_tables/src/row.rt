//! A row of a table of names, as a line.
//!
//!     row  ::= name '=' code ('+' code)?
//!     name ::= 1 to 31 letters and digits
//!     code ::= 1 to 6 hexadecimal digits of a scalar value
ghost use Rattle.std.specs.Prelude.{◌≡◌, IfSome, IsTrue, MatchOption, length, encode_utf8};
ghost use Rattle.std.specs.Option.{option_map};
ghost use Rattle.std.specs.Char.{is_ascii_alphanumeric, is_ascii_hexdigit};
ghost use Rattle.std.specs.List.{list_all, position_or_len};
ghost use Rattle.std.specs.Str.Parse.{digits_value};
ghost use Rattle.definition_inline.specs.ReferenceRows.{scalar_text, codes_text, is_name, row_of};
ghost use Rattle.markdown_tables.specs.RowParts.{are_code_digits, both_texts, characters_text, is_plus, row_view, IsSplitAtPlus};

use markdown_options::constants::{
    CHARACTER_REFERENCE_HEXADECIMAL_SIZE_MAX, CHARACTER_REFERENCE_NAMED_SIZE_MAX,
};

/// The one or two characters of a name.
#[derive(Clone, Copy)]
pub(crate) struct Characters {
    pub first: char,
    pub second: Option<char>,
}

/// A name, and its characters.
#[derive(Clone, Copy)]
pub(crate) struct NamedCharacters<'a> {
    pub name: &'a str,
    pub characters: Characters,
}

/// Reads a line as a row.
pub(crate) fn read_row(line: &str) -> Option<NamedCharacters<'_>>
    ensures row { option_map row_view result ≡ row_of line.now }
    ensures named { IfSome result (λ r. IsTrue (is_name r.name.now)) }
{
    let (name, codes) = line.split_once('=')?;
    if !is_name(name) {
        return None;
    }
    let characters = read_codes(codes)?;
    Some(NamedCharacters { name, characters })
}

/// Whether a text is 1 to 31 ASCII letters or digits.
fn is_name(text: &str) -> bool
    ensures { result ≡ is_name text.now }
{
    !text.is_empty()
        && text.len() <= CHARACTER_REFERENCE_NAMED_SIZE_MAX
        && are_alphanumeric(text.as_bytes())
}

fn are_alphanumeric(bytes: &[u8]) -> bool
    ensures { result ≡ list_all is_ascii_alphanumeric bytes.now }
{
    bytes.iter().all(|b| b.is_ascii_alphanumeric())
}

/// The characters of one or two codes.
fn read_codes(codes: &str) -> Option<Characters>
    ensures { option_map characters_text result ≡ codes_text codes.now }
{
    match split_codes(codes) {
        None => read_one(codes),
        Some((first, second)) => read_two(first, second),
    }
}

/// The texts before and after the first `+`.
fn split_codes(codes: &str) -> Option<(&str, &str)>
    ensures { MatchOption result (position_or_len is_plus codes.now ≡ length codes.now) (λ x. IsSplitAtPlus codes.now x.0.now x.1.now) }
{
    codes.split_once('+')
}

fn read_one(code: &str) -> Option<Characters>
    ensures { option_map characters_text result ≡ scalar_text code.now }
{
    let first = read_code(code)?;
    Some(Characters {
        first,
        second: None,
    })
}

fn read_two(first: &str, second: &str) -> Option<Characters>
    ensures { option_map characters_text result ≡ both_texts (scalar_text first.now) (scalar_text second.now) }
{
    let first = read_code(first)?;
    let second = read_code(second)?;
    Some(Characters {
        first,
        second: Some(second),
    })
}

/// The character of a code.
fn read_code(digits: &str) -> Option<char>
    ensures { option_map encode_utf8 result ≡ scalar_text digits.now }
{
    if !are_code_digits(digits) {
        return None;
    }
    char::from_u32(code_value(digits))
}

/// Whether a text is 1 to 6 hexadecimal digits.
fn are_code_digits(text: &str) -> bool
    ensures { result ≡ are_code_digits text.now }
{
    !text.is_empty()
        && text.len() <= CHARACTER_REFERENCE_HEXADECIMAL_SIZE_MAX
        && are_hexadecimal(text.as_bytes())
}

fn are_hexadecimal(bytes: &[u8]) -> bool
    ensures { result ≡ list_all is_ascii_hexdigit bytes.now }
{
    bytes.iter().all(|b| b.is_ascii_hexdigit())
}

/// The number of 1 to 6 hexadecimal digits.
fn code_value(digits: &str) -> u32
    requires { IsTrue (are_code_digits digits.now) }
    ensures { result ≡ digits_value 16 digits.now }
{
    match u32::from_str_radix(digits, 16) {
        Ok(value) => value,
        Err(_) => unreachable!(),
    }
}
