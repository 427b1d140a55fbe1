//! Code spans (CommonMark 6.1).
ghost use Rattle.std.specs.Prelude.{◌++◌, codes};
ghost use Rattle.definition_inline.specs.CodeText.{code_text};
ghost use Rattle.definition_text.specs.Content.{content_codes};
ghost use Rattle.definition_text.specs.Encode.{encode};
ghost use Rattle.html_inline.specs.GfmTable.{code_in_cell};
ghost use Rattle.html_inline.specs.Prints.{Prints};

use crate::gfm_table::push_cell_code;
use html_escape::push_encoded;
use html_heading_text::code_text::{push_spaced, without_padding};
use std::alloc::{AllocError, Allocator};

/// Prints a code span, in a cell or not (CommonMark 6.1).
pub(crate) fn push_code_span<A: Allocator>(
    out: &mut String<A>,
    room: &mut String<A>,
    cell: bool,
    code: &str,
) -> Result<(), AllocError>
    ensures { Prints result out.old out.new (codes "<code>" ++ encode (code_in_cell cell (code_text (content_codes code.now))) ++ codes "</code>") }
{
    out.push_str("<code>")?;
    push_code(out, room, cell, code)?;
    out.push_str("</code>")
}

/// Prints the text of a code span, in a cell or not. `spaces` is overwritten.
pub(crate) fn push_code<A: Allocator>(
    out: &mut String<A>,
    spaces: &mut String<A>,
    cell: bool,
    code: &str,
) -> Result<(), AllocError>
    ensures { Prints result out.old out.new (encode (code_in_cell cell (code_text (content_codes code.now)))) }
{
    spaces.clear();
    push_spaced(spaces, code)?;
    let text = without_padding(spaces.as_str());
    if cell {
        push_cell_code(out, text)
    } else {
        push_encoded(out, text)
    }
}
