//! Constructs as events spell them: code spans and math in which line endings are printed as they are,
//! and checks anywhere in a text.
ghost use Rattle.std.specs.Prelude.{◌++◌, ◌∷◌, [], codes};
ghost use Rattle.std.specs.List.{flat_map};
ghost use Rattle.definition_inline.specs.CodeText.{without_padding};
ghost use Rattle.definition_page.specs.InlinePieces.{math_tag};
ghost use Rattle.definition_page.specs.Tags.{start_tag, end_tag};
ghost use Rattle.definition_text.specs.Encode.{encode};
ghost use Rattle.html_bytes.specs.InlineHtml.{leaf_description, leaf_html};
ghost use Rattle.inline_rows.specs.View.{spelled_view};
ghost use Rattle.html_inline.specs.GfmTable.{code_in_cell, leaf_in};
ghost use Rattle.html_inline.specs.Prints.{Prints};

use crate::gfm_table::push_cell_code;
use crate::gfm_task_list_item::push_check;
use html_escape::push_encoded;
use html_heading_text::code_text::without_padding;
use inline_rows::SpelledLeaf;
use markdown_compile_options::CompileOptions;
use std::alloc::{AllocError, Allocator};

/// Prints what a construct says in the description of an image, in a cell or not (CommonMark 6.4).
pub(crate) fn push_spelled_description<A: Allocator>(
    out: &mut String<A>,
    compile: &CompileOptions,
    cell: bool,
    leaf: SpelledLeaf<'_>,
) -> Result<(), AllocError>
    ensures { Prints result out.old out.new (flat_map (leaf_description compile.now) (leaf_in cell (spelled_view leaf.entry) ∷ [])) }
{
    match leaf {
        SpelledLeaf::Code(text) => push_text(out, cell, text),
        SpelledLeaf::Math(text) => push_text(out, cell, text),
        SpelledLeaf::Check(_) => Ok(()),
    }
}

/// Prints a construct, in a cell or not.
pub(crate) fn push_spelled_leaf<A: Allocator>(
    out: &mut String<A>,
    compile: &CompileOptions,
    cell: bool,
    leaf: SpelledLeaf<'_>,
) -> Result<(), AllocError>
    ensures { Prints result out.old out.new (flat_map (leaf_html compile.now) (leaf_in cell (spelled_view leaf.entry) ∷ [])) }
{
    match leaf {
        SpelledLeaf::Code(text) => push_code(out, cell, text),
        SpelledLeaf::Math(text) => push_math(out, cell, text),
        SpelledLeaf::Check(done) => push_check(out, compile, done),
    }
}

/// Prints a code span.
fn push_code<A: Allocator>(out: &mut String<A>, cell: bool, text: &str) -> Result<(), AllocError>
    ensures { Prints result out.old out.new (codes "<code>" ++ encode (code_in_cell cell (without_padding text.now)) ++ codes "</code>") }
{
    out.push_str("<code>")?;
    push_text(out, cell, text)?;
    out.push_str("</code>")
}

/// Prints math.
fn push_math<A: Allocator>(out: &mut String<A>, cell: bool, text: &str) -> Result<(), AllocError>
    ensures { Prints result out.old out.new (start_tag math_tag ++ encode (code_in_cell cell (without_padding text.now)) ++ end_tag (codes "code")) }
{
    out.push_str("<code class=\"language-math math-inline\">")?;
    push_text(out, cell, text)?;
    out.push_str("</code>")
}

/// Prints the text of a code span, in a cell or not.
fn push_text<A: Allocator>(out: &mut String<A>, cell: bool, text: &str) -> Result<(), AllocError>
    ensures { Prints result out.old out.new (encode (code_in_cell cell (without_padding text.now))) }
{
    let text = without_padding(text);
    if cell {
        push_cell_code(out, text)
    } else {
        push_encoded(out, text)
    }
}
