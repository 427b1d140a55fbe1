//! URLs of links and images (CommonMark 6.3 and 6.4).
ghost use Rattle.std.specs.Prelude.{◌≡◌, OnOk, string_bytes};
ghost use Rattle.definition_text.specs.Encode.{encode};
ghost use Rattle.definition_page.specs.Destinations.{based, image_base, image_source, link_base, link_destination, prefixed};
ghost use Rattle.definition_page.specs.InlinePieces.{image_url, link_url};
ghost use Rattle.html_inline.specs.Fragments.{is_fragment};
ghost use Rattle.html_inline.specs.Prints.{Prints};

use html_escape::{is_relative, push_sanitized, push_sanitized_with_protocols};
use html_footnotes::{heading_prefix, text_or};
use markdown_compile_options::CompileOptions;
use markdown_options::constants::{SAFE_PROTOCOL_HREF, SAFE_PROTOCOL_SRC};
use std::alloc::{AllocError, Allocator};

/// Prints the URL of a link, only with the protocols that are permitted there, unless all are.
pub(crate) fn push_link_url<A: Allocator>(
    out: &mut String<A>,
    compile: &CompileOptions,
    url: &str,
) -> Result<(), AllocError>
    ensures { Prints result out.old out.new (encode (link_url compile.now url.now)) }
{
    if compile.allow_dangerous_protocol {
        push_sanitized(out, url)
    } else {
        push_sanitized_with_protocols(out, url, &SAFE_PROTOCOL_HREF)
    }
}

/// Prints the URL of an image.
pub(crate) fn push_image_url<A: Allocator>(
    out: &mut String<A>,
    compile: &CompileOptions,
    url: &str,
) -> Result<(), AllocError>
    ensures { Prints result out.old out.new (encode (image_url compile.now url.now)) }
{
    if compile.allow_any_img_src || compile.allow_dangerous_protocol {
        push_sanitized(out, url)
    } else {
        push_sanitized_with_protocols(out, url, &SAFE_PROTOCOL_SRC)
    }
}

/// Makes the URL of a link the one that it leads to: the base of links goes before a relative path,
/// and the prefix of ids into a fragment of the page.
pub(crate) fn lead_link<A: Allocator>(
    url: &mut String<A>,
    compile: &CompileOptions,
) -> Result<(), AllocError>
    ensures { OnOk result (string_bytes url.new ≡ link_destination compile.now (string_bytes url.old)) }
{
    put_prefix(url, heading_prefix(compile))?;
    put_base(url, link_base(compile))
}

/// Makes the URL of an image the one where it is: the base of images goes before a relative path.
pub(crate) fn lead_image<A: Allocator>(
    url: &mut String<A>,
    compile: &CompileOptions,
) -> Result<(), AllocError>
    ensures { OnOk result (string_bytes url.new ≡ image_source compile.now (string_bytes url.old)) }
{
    put_base(url, image_base(compile))
}

/// Puts a base before a URL that is a relative path.
fn put_base<A: Allocator>(url: &mut String<A>, base: &str) -> Result<(), AllocError>
    ensures { OnOk result (string_bytes url.new ≡ based base.now (string_bytes url.old)) }
{
    if base.is_empty() {
        return Ok(());
    }
    if is_relative(url.as_bytes()) {
        url.insert_str(0, base)
    } else {
        Ok(())
    }
}

/// Puts a prefix after the `#` of a URL that is a fragment; `#` alone stays.
fn put_prefix<A: Allocator>(url: &mut String<A>, prefix: &str) -> Result<(), AllocError>
    ensures { OnOk result (string_bytes url.new ≡ prefixed prefix.now (string_bytes url.old)) }
{
    if prefix.is_empty() {
        return Ok(());
    }
    if is_fragment(url.as_bytes()) {
        url.insert_str(1, prefix)
    } else {
        Ok(())
    }
}

/// Whether a URL is `#` and more.
fn is_fragment(url: &[u8]) -> bool
    ensures { result ≡ is_fragment url.now }
{
    matches!(url, [b'#', _, ..])
}

/// The base of links.
fn link_base(compile: &CompileOptions) -> &str
    ensures { result.now ≡ link_base compile.now }
{
    text_or(&compile.link_base, "")
}

/// The base of images, which is that of links unless they have their own.
fn image_base(compile: &CompileOptions) -> &str
    ensures { result.now ≡ image_base compile.now }
{
    text_or(&compile.image_base, link_base(compile))
}
