//! The URL of a link (CommonMark 6.3).
ghost use Rattle.std.specs.Prelude.{◌≡◌, IfOk, string_bytes};
ghost use Rattle.definition_text.specs.Content.{content_codes};
ghost use Rattle.definition_text.specs.Encode.{encode, plain};
ghost use Rattle.definition_inline.specs.Strings.{string_text};
ghost use Rattle.definition_page.specs.InlinePieces.{link_url};
ghost use Rattle.html_escape.specs.Prints.{Prints};

use html_escape::{push_raw, push_sanitized, push_sanitized_with_protocols};
use html_inline::push_string;
use markdown_compile_options::CompileOptions;
use markdown_options::constants::SAFE_PROTOCOL_HREF;
use markdown_options::{Constructs, Tables};
use std::alloc::{AllocError, Allocator};

/// Prints the URL of a link as `html_inline` does: its protocol is tested once escapes and
/// references are decoded.
pub fn push_link_url<A: Allocator + Clone, T: Tables>(
    alloc: A,
    out: &mut String<A>,
    on: &Constructs,
    compile: &CompileOptions,
    tables: &T,
    destination: &str,
) -> Result<(), AllocError>
    ensures { Prints result out.old out.new
        (encode (link_url compile.now (plain (string_text on.now (T.reference_of tables.now) (content_codes destination.now))))) }
{
    let url = decoded(alloc, on, tables, destination)?;
    push_permitted(out, compile, url.as_str())
}

/// The text of a destination, with U+FFFD for NUL.
fn decoded<A: Allocator + Clone, T: Tables>(
    alloc: A,
    on: &Constructs,
    tables: &T,
    destination: &str,
) -> Result<String<A>, AllocError>
    ensures { IfOk result (λ url. string_bytes url ≡ plain (string_text on.now (T.reference_of tables.now) (content_codes destination.now))) }
{
    let mut text = String::new(alloc.clone()?);
    push_string(&mut text, on, tables, destination)?;
    let mut url = String::new(alloc);
    push_raw(&mut url, text.as_str(), false)?;
    Ok(url)
}

/// Prints a URL, only with the protocols that are permitted in links, unless all are.
fn push_permitted<A: Allocator>(
    out: &mut String<A>,
    compile: &CompileOptions,
    url: &str,
) -> Result<(), AllocError>
    ensures { Prints result out.old out.new (encode (link_url compile.now url.now)) }
{
    if compile.allow_dangerous_protocol {
        push_sanitized(out, url)
    } else {
        push_sanitized_with_protocols(out, url, &SAFE_PROTOCOL_HREF)
    }
}
