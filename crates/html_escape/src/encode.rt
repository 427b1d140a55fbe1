//! Text as HTML.
ghost use Rattle.std.specs.Prelude.{◌≡◌, ◌++◌, IfOk, IfErr, OnOk, string_bytes};
ghost use Rattle.markdown_options.specs.Messages.{IsOutOfMemory};
ghost use Rattle.definition_text.specs.Encode.{encode};
ghost use Rattle.html_escape.specs.Tools.{encoded_if};

use crate::replaced::{Replacement, push_replaced};
use markdown_options::Message;
use std::alloc::{AllocError, Allocator};
use text_search::ByteSet;

/// NUL.
const NUL: ByteSet = ByteSet {
    first: [0, 2, 3, 4, 5, 6, 7, 8, 9, 10, 11, 12, 13, 14, 15, 0],
    second: [1, 2, 3, 4, 5, 6, 7, 8, 9, 10, 11, 12, 13, 14, 15, 0],
};

/// NUL, `"`, `&`, `<` and `>`.
const ENCODED_BYTES: ByteSet = ByteSet {
    first: [
        0, 2, b'"', 4, 5, 6, b'&', 8, 9, 10, 11, 12, b'<', 14, b'>', 0,
    ],
    second: [1, 2, 3, 4, 5, 6, 7, 8, 9, 10, 11, 12, 13, 14, 15, 0],
};

/// How a text is printed.
#[derive(Clone, Copy)]
struct Text {
    /// Whether `"`, `&`, `<` and `>` are printed as references.
    html: bool,
}

impl Replacement for Text {
    ghost use Rattle.html_escape.specs.Tools.{text_byte};

    ghost printed = { λ text. text_byte text.html };

    fn candidates(&self) -> ByteSet {
        if self.html { ENCODED_BYTES } else { NUL }
    }

    fn replacement(&self, byte: u8, _after: &[u8]) -> Option<&'static str> {
        match byte {
            0 => Some("\u{FFFD}"),
            b'"' if self.html => Some("&quot;"),
            b'&' if self.html => Some("&amp;"),
            b'<' if self.html => Some("&lt;"),
            b'>' if self.html => Some("&gt;"),
            _ => None,
        }
    }
}

/// Returns a text with U+FFFD for NUL (CommonMark 2.3) and, with `encode_html`, references for `"`,
/// `&`, `<` and `>`. The only error is `out of memory`.
pub fn encode<A: Allocator>(alloc: A, value: &str, encode_html: bool) -> Result<String<A>, Message>
    ensures text { IfOk result (λ text. string_bytes text ≡ encoded_if encode_html value.now) }
    ensures memory { IfErr result IsOutOfMemory }
{
    let mut out = String::with_capacity(alloc, value.len())?;
    push_text(&mut out, value, encode_html)?;
    Ok(out)
}

/// Appends a text with references for `"`, `&`, `<` and `>`, and U+FFFD for NUL (CommonMark 2.3).
pub fn push_encoded<A: Allocator>(out: &mut String<A>, text: &str) -> Result<(), AllocError>
    ensures { OnOk result (string_bytes out.new ≡ string_bytes out.old ++ encode text.now) }
{
    push_text(out, text, true)
}

/// Appends a text with U+FFFD for NUL and, with `html`, references for `"`, `&`, `<` and `>`.
fn push_text<A: Allocator>(out: &mut String<A>, text: &str, html: bool) -> Result<(), AllocError>
    ensures { OnOk result (string_bytes out.new ≡ string_bytes out.old ++ encoded_if html text.now) }
{
    push_replaced(&Text { html }, out, text)
}
