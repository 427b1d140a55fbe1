//! Autolinks (CommonMark 6.5).
ghost use Rattle.std.specs.Prelude.{◌≡◌, ◌++◌, OnOk, codes, string_bytes};
ghost use Rattle.definition_text.specs.Encode.{encode};
ghost use Rattle.definition_page.specs.InlinePieces.{address, address_tag};
ghost use Rattle.definition_page.specs.Tags.{start_tag, end_tag};
ghost use Rattle.html_inline.specs.Prints.{Prints};

use crate::label_end::push_rel;
use crate::url::push_link_url;
use html_escape::push_encoded;
use markdown_compile_options::CompileOptions;
use std::alloc::{AllocError, Allocator};

/// Prints an autolink (CommonMark 6.5). `room` is used for its URL.
pub(crate) fn push_autolink<A: Allocator>(
    out: &mut String<A>,
    room: &mut String<A>,
    compile: &CompileOptions,
    email: bool,
    text: &str,
) -> Result<(), AllocError>
    ensures { Prints result out.old out.new (start_tag (address_tag compile.now (address email text.now)) ++ encode text.now ++ end_tag (codes "a")) }
{
    read_address(room, email, text)?;
    push_linked_text(out, compile, room.as_str(), text)
}

/// Prints a text that is a link to an address.
pub(crate) fn push_linked_text<A: Allocator>(
    out: &mut String<A>,
    compile: &CompileOptions,
    address: &str,
    text: &str,
) -> Result<(), AllocError>
    ensures { Prints result out.old out.new (start_tag (address_tag compile.now address.now) ++ encode text.now ++ end_tag (codes "a")) }
{
    out.push_str("<a href=\"")?;
    push_link_url(out, compile, address)?;
    out.push_str("\"")?;
    push_rel(out, compile)?;
    out.push_str(">")?;
    push_encoded(out, text)?;
    out.push_str("</a>")
}

/// Reads the address that an autolink leads to (CommonMark 6.5).
fn read_address<A: Allocator>(
    room: &mut String<A>,
    email: bool,
    text: &str,
) -> Result<(), AllocError>
    ensures { OnOk result (string_bytes room.new ≡ address email text.now) }
{
    room.clear();
    if email {
        room.push_str("mailto:")?;
    }
    room.push_str(text)
}
