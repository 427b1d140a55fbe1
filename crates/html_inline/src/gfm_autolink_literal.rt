//! Links with no brackets (GFM 6.9).
ghost use Rattle.std.specs.Prelude.{◌≡◌, ◌++◌, OnOk, codes, string_bytes};
ghost use Rattle.definition_text.specs.Encode.{encode};
ghost use Rattle.definition_page.specs.InlinePieces.{literal_address, address_tag};
ghost use Rattle.definition_page.specs.Tags.{start_tag, end_tag};
ghost use Rattle.html_inline.specs.Prints.{Prints};
ghost use Rattle.inline_leaves.specs.Leaves.{kind_view};

use crate::autolink::push_linked_text;
use inline_leaves::LiteralKind;
use markdown_compile_options::CompileOptions;
use std::alloc::{AllocError, Allocator};

/// Prints a literal (GFM 6.9). `room` is used for its URL.
pub(crate) fn push_literal<A: Allocator>(
    out: &mut String<A>,
    room: &mut String<A>,
    compile: &CompileOptions,
    kind: LiteralKind,
    text: &str,
) -> Result<(), AllocError>
    ensures { Prints result out.old out.new (start_tag (address_tag compile.now (literal_address (kind_view kind) text.now)) ++ encode text.now ++ end_tag (codes "a")) }
{
    read_literal_address(room, kind, text)?;
    push_linked_text(out, compile, room.as_str(), text)
}

/// Reads the address that a literal leads to (GFM 6.9).
fn read_literal_address<A: Allocator>(
    room: &mut String<A>,
    kind: LiteralKind,
    text: &str,
) -> Result<(), AllocError>
    ensures { OnOk result (string_bytes room.new ≡ literal_address (kind_view kind) text.now) }
{
    room.clear();
    match kind {
        LiteralKind::Www => room.push_str("http://")?,
        LiteralKind::Protocol => {}
        LiteralKind::Email => room.push_str("mailto:")?,
    }
    room.push_str(text)
}
