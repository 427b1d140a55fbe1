//! Where references are.
ghost use Rattle.std.specs.Prelude.{◌≡◌, ◌≤◌, IfSome, IsTrue, length};
ghost use Rattle.std.specs.Option.{option_map};
ghost use Rattle.definition_inline.specs.CharacterReference.{reference_after};
ghost use Rattle.inline_references.specs.Markers.{is_marker, marker_of, marker_size, IsDecodable};
ghost use Rattle.inline_references.specs.Places.{placed_reference, text_reference, IsCutFrom, IsPlaced};

use crate::value::{value_len, value_max};

/// A reference, by places after its `&`.
#[derive(Clone, Copy, Debug, PartialEq, Eq)]
pub struct Reference {
    /// `&` before a name, `#` before decimal and `x` before hexadecimal digits.
    pub marker: u8,
    /// Where its name or digits begin, in bytes after the `&`.
    pub start: usize,
    /// Where its `;` is, in bytes after the `&`.
    pub end: usize,
}

/// Returns the reference whose `&` is before these bytes, if there is one (CommonMark 2.5).
pub fn reference_at(bytes: &[u8]) -> Option<Reference>
    ensures read { option_map (placed_reference bytes.now) result ≡ reference_after bytes.now }
    ensures place { IfSome result (IsPlaced bytes.now) }
{
    let marker = marker_of(bytes);
    let start = marker_size(marker);
    let size = value_len(marker, &bytes[start..]);
    let end = start + size;
    if size >= 1 && size <= value_max(marker) && end < bytes.len() && bytes[end] == b';' {
        Some(Reference { marker, start, end })
    } else {
        None
    }
}

/// The marker of what these bytes after a `&` begin with.
fn marker_of(bytes: &[u8]) -> u8
    ensures marker { result ≡ marker_of bytes.now }
    ensures known { IsTrue (is_marker result) }
    ensures within { marker_size result ≤ length bytes.now }
{
    if !bytes.starts_with(b"#") {
        b'&'
    } else if bytes.len() > 1 && (bytes[1] == b'x' || bytes[1] == b'X') {
        b'x'
    } else {
        b'#'
    }
}

/// How many bytes are between the `&` and the value.
fn marker_size(marker: u8) -> usize
    requires { IsTrue (is_marker marker) }
    ensures { result ≡ marker_size marker }
{
    match marker {
        b'x' => 2,
        b'#' => 1,
        _ => 0,
    }
}

/// A reference with its text.
#[derive(Clone, Copy, Debug, PartialEq, Eq)]
pub struct CharacterReference<'a> {
    /// `&` before a name, `#` before decimal and `x` before hexadecimal digits.
    pub marker: u8,
    /// Its name or digits.
    pub value: &'a str,
    /// The text after its `;`.
    pub rest: &'a str,
}

/// Returns the reference whose `&` is before a text, if there is one (CommonMark 2.5).
pub fn character_reference(text: &str) -> Option<CharacterReference<'_>>
    ensures read { option_map text_reference result ≡ reference_after text.now }
    ensures cut { IfSome result (IsCutFrom text.now) }
    ensures known { IfSome result (λ r. IsTrue (is_marker r.marker)) }
    ensures value { IfSome result (λ r. IsDecodable r.marker r.value.now) }
{
    let found = reference_at(text.as_bytes())?;
    Some(CharacterReference {
        marker: found.marker,
        value: &text[found.start..found.end],
        rest: &text[found.end + 1..],
    })
}
