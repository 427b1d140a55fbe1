//! URLs as they are printed in attributes.
ghost use Rattle.std.specs.Prelude.{◌≡◌, ◌++◌, ◌<◌, OnOk, string_bytes};
ghost use Rattle.definition_text.specs.Encode.{encode};
ghost use Rattle.definition_page.specs.InlinePieces.{permitted_url};
ghost use Rattle.definition_html.specs.Attributes.{code_bytes, url_bytes};
ghost use Rattle.html_safe_page.specs.Views.{names_of};
ghost use Rattle.html_sanitizer.specs.Urls.{replaced};

use html_escape::{push_sanitized, push_sanitized_with_protocols};
use std::alloc::{AllocError, Allocator};

/// Buffers for the value of an attribute.
#[derive(Drop)]
pub(crate) struct Buffers<A: Allocator> {
    /// A text without references.
    pub(crate) text: String<A>,
    /// A URL.
    pub(crate) url: String<A>,
    /// A URL while it is read.
    pub(crate) other: String<A>,
}

/// Makes of a text a URL as browsers read it: without tabs and line endings, and with U+FFFD for NUL.
pub(crate) fn clean_url<A: Allocator>(
    url: &mut String<A>,
    other: &mut String<A>,
    text: &str,
) -> Result<(), AllocError>
    ensures { OnOk result (string_bytes url.new ≡ url_bytes (code_bytes text.now)) }
{
    push_replaced(other, text, '\t', "")?;
    push_replaced(url, other.as_str(), '\n', "")?;
    push_replaced(other, url.as_str(), '\r', "")?;
    push_replaced(url, other.as_str(), '\0', "\u{FFFD}")
}

/// Makes of a text one in which an ASCII character is replaced.
fn push_replaced<A: Allocator>(
    out: &mut String<A>,
    text: &str,
    character: char,
    replacement: &str,
) -> Result<(), AllocError>
    requires { character < 128 }
    ensures { OnOk result (string_bytes out.new ≡ replaced character replacement.now text.now) }
{
    out.clear();
    let mut rest = text;
    while let Some((before, after)) = rest.split_once(character) {
        out.push_str(before)?;
        out.push_str(replacement)?;
        rest = after;
    }
    out.push_str(rest)
}

/// Appends a URL; unless all protocols are permitted, only with one of these or with none.
pub(crate) fn push_permitted_url<A: Allocator>(
    out: &mut String<A>,
    all: bool,
    protocols: &[&str],
    url: &str,
) -> Result<(), AllocError>
    ensures { OnOk result (string_bytes out.new ≡ string_bytes out.old ++ encode (permitted_url all (names_of protocols.now) url.now)) }
{
    if all {
        push_sanitized(out, url)
    } else {
        push_sanitized_with_protocols(out, url, protocols)
    }
}
