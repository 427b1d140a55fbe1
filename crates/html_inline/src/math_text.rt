//! Math in a text: a code span with a class (in neither standard).
ghost use Rattle.std.specs.Prelude.{◌++◌, codes};
ghost use Rattle.definition_inline.specs.CodeText.{code_text};
ghost use Rattle.definition_page.specs.InlinePieces.{math_tag};
ghost use Rattle.definition_page.specs.Tags.{start_tag, end_tag};
ghost use Rattle.definition_text.specs.Content.{content_codes};
ghost use Rattle.definition_text.specs.Encode.{encode};
ghost use Rattle.html_inline.specs.GfmTable.{code_in_cell};
ghost use Rattle.html_inline.specs.Prints.{Prints};

use crate::code_text::push_code;
use std::alloc::{AllocError, Allocator};

/// Prints math, in a cell or not.
pub(crate) fn push_math<A: Allocator>(
    out: &mut String<A>,
    room: &mut String<A>,
    cell: bool,
    math: &str,
) -> Result<(), AllocError>
    ensures { Prints result out.old out.new (start_tag math_tag ++ encode (code_in_cell cell (code_text (content_codes math.now))) ++ end_tag (codes "code")) }
{
    out.push_str("<code class=\"language-math math-inline\">")?;
    push_code(out, room, cell, math)?;
    out.push_str("</code>")
}
