//! The filter of tags in raw HTML (GFM 6.11).
//!
//!     filtered_tag ::= '<' '/'? name end
//!     name         ::= one of GFM_HTML_TAGFILTER_NAMES, in whatever case, and no letter after it
//!     end          ::= tab | line feed | form feed | return | space | '/' | '>' | end of the text
ghost use Rattle.std.specs.Prelude.{◌≡◌, ◌++◌, IfOk, IfErr, OnOk, string_bytes};
ghost use Rattle.std.specs.List.{take_while};
ghost use Rattle.markdown_options.specs.Messages.{IsOutOfMemory};
ghost use Rattle.definition_text.specs.Encode.{plain};
ghost use Rattle.definition_block.specs.HtmlNames.{is_one_of};
ghost use Rattle.definition_text.specs.Bytes.{is_letter, after_all};
ghost use Rattle.definition_page.specs.GfmTagfilter.{begins_with_filtered_name, ends_filtered_name, filtered_names, is_filtered, filter_tags};
ghost use Rattle.html_escape.specs.Tools.{filtered_if};

use crate::replaced::{Replacement, push_replaced};
use markdown_options::Message;
use markdown_options::constants::{GFM_HTML_TAGFILTER_NAMES, GFM_HTML_TAGFILTER_SIZE_MAX};
use std::alloc::{AllocError, Allocator};
use text_bytes::{is_short_one_of, without_slash};
use text_search::ByteSet;

/// The last name is the longest, so its size is the largest one.
const _: () = prove!(GFM_HTML_TAGFILTER_NAMES[8].len() == GFM_HTML_TAGFILTER_SIZE_MAX);

/// NUL and `<`.
const OPENINGS: ByteSet = ByteSet {
    first: [0, 2, 3, 4, 5, 6, 7, 8, 9, 10, 11, 12, b'<', 14, 15, 0],
    second: [1, 2, 3, 4, 5, 6, 7, 8, 9, 10, 11, 12, 13, 14, 15, 0],
};

/// The `<` of filtered tags is replaced.
#[derive(Clone, Copy)]
struct Tags;

impl Replacement for Tags {
    ghost use Rattle.html_escape.specs.Tools.{filtered_byte};

    ghost printed = { λ _. filtered_byte };

    fn candidates(&self) -> ByteSet {
        OPENINGS
    }

    fn replacement(&self, byte: u8, after: &[u8]) -> Option<&'static str> {
        match byte {
            b'<' if is_filtered(after) => Some("&lt;"),
            _ => None,
        }
    }
}

/// How raw HTML is printed.
#[derive(Clone, Copy)]
struct RawHtml {
    /// Whether tags are filtered.
    filters: bool,
}

impl Replacement for RawHtml {
    ghost use Rattle.html_escape.specs.Tools.{raw_byte};

    ghost printed = { λ html. raw_byte html.filters };

    fn candidates(&self) -> ByteSet {
        OPENINGS
    }

    fn replacement(&self, byte: u8, after: &[u8]) -> Option<&'static str> {
        match byte {
            0 => Some("\u{FFFD}"),
            b'<' if self.filters && is_filtered(after) => Some("&lt;"),
            _ => None,
        }
    }
}

/// Returns HTML with `&lt;` for the `<` of each filtered tag (GFM 6.11). The only error is
/// `out of memory`.
pub fn gfm_tagfilter<A: Allocator>(alloc: A, value: &str) -> Result<String<A>, Message>
    ensures text { IfOk result (λ text. string_bytes text ≡ filter_tags value.now) }
    ensures memory { IfErr result IsOutOfMemory }
{
    let mut out = String::with_capacity(alloc, value.len())?;
    push_filtered(&mut out, value)?;
    Ok(out)
}

/// Appends HTML with `&lt;` for the `<` of each filtered tag (GFM 6.11).
pub fn push_filtered<A: Allocator>(out: &mut String<A>, html: &str) -> Result<(), AllocError>
    ensures { OnOk result (string_bytes out.new ≡ string_bytes out.old ++ filter_tags html.now) }
{
    push_replaced(&Tags, out, html)
}

/// Appends HTML as it is, with U+FFFD for NUL. If tags are filtered, the `<` of each filtered tag
/// is appended as `&lt;` (GFM 6.11).
pub fn push_raw<A: Allocator>(
    out: &mut String<A>,
    html: &str,
    filters: bool,
) -> Result<(), AllocError>
    ensures { OnOk result (string_bytes out.new ≡ string_bytes out.old ++ plain (filtered_if filters html.now)) }
{
    push_replaced(&RawHtml { filters }, out, html)
}

/// Whether the `<` before these bytes begins a filtered tag (GFM 6.11).
fn is_filtered(after: &[u8]) -> bool
    ensures { result ≡ is_filtered after.now }
{
    begins_with_filtered_name(without_slash(after))
}

/// Whether bytes begin with a filtered name and a byte that ends it.
fn begins_with_filtered_name(bytes: &[u8]) -> bool
    ensures { result ≡ begins_with_filtered_name bytes.now }
{
    let (name, after) = split_letters(bytes);
    is_filtered_name(name) && ends_filtered_name(after)
}

/// The letters that bytes begin with, and what follows them.
fn split_letters(bytes: &[u8]) -> (&[u8], &[u8])
    ensures letters { result.0.now ≡ take_while is_letter bytes.now }
    ensures after { result.1.now ≡ after_all is_letter bytes.now }
{
    for (i, b) in bytes.iter().enumerate() {
        if !b.is_ascii_alphabetic() {
            return bytes.split_at(i);
        }
    }
    (bytes, &[])
}

/// Whether a name is one of those that are filtered, in whatever case (GFM 6.11).
fn is_filtered_name(name: &[u8]) -> bool
    ensures { result ≡ is_one_of filtered_names name.now }
{
    is_short_one_of(&GFM_HTML_TAGFILTER_NAMES, GFM_HTML_TAGFILTER_SIZE_MAX, name)
}

/// Whether bytes begin with what ends a filtered name.
fn ends_filtered_name(bytes: &[u8]) -> bool
    ensures { result ≡ ends_filtered_name bytes.now }
{
    match bytes {
        [] => true,
        [b, ..] => matches!(*b, b'\t' | b'\n' | b'\x0C' | b'\r' | b' ' | b'/' | b'>'),
    }
}
