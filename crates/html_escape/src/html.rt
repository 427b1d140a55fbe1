//! Raw HTML: as it is, marked, or as text (CommonMark 4.6 and 6.6).
ghost use Rattle.std.specs.Prelude.{◌≡◌, ◌++◌, OnOk, string_bytes};
ghost use Rattle.definition_page.specs.Tags.{marked};
ghost use Rattle.html_bytes.specs.RawHtml.{raw_bytes};

use crate::encode::push_encoded;
use crate::filter::push_raw;
use markdown_compile_options::CompileOptions;
use std::alloc::{AllocError, Allocator};

/// Appends raw HTML, in the description of an image or not: marked if it is kept by the list, though
/// not in a description; as it is if the options allow that; otherwise as text. In HTML that is
/// appended as it is, tags may be filtered (GFM 6.11).
pub fn push_html<A: Allocator>(
    out: &mut String<A>,
    compile: &CompileOptions,
    described: bool,
    html: &str,
) -> Result<(), AllocError>
    ensures { OnOk result (string_bytes out.new ≡ string_bytes out.old ++ raw_bytes described compile.now html.now) }
{
    if compile.keeps_listed_html() && !described {
        push_marked(out, html)
    } else if compile.allow_dangerous_html {
        push_raw(out, html, compile.gfm_tagfilter)
    } else {
        push_encoded(out, html)
    }
}

/// Appends HTML that is kept by the list: as text in an element without a name, unless it is empty.
fn push_marked<A: Allocator>(out: &mut String<A>, html: &str) -> Result<(), AllocError>
    ensures { OnOk result (string_bytes out.new ≡ string_bytes out.old ++ marked html.now) }
{
    if html.is_empty() {
        return Ok(());
    }
    out.push_str("<>")?;
    push_encoded(out, html)?;
    out.push_str("</>")
}
