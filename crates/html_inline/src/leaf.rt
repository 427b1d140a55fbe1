//! The constructs that hold no other.
ghost use Rattle.std.specs.List.{flat_map};
ghost use Rattle.html_bytes.specs.InlineHtml.{leaf_description, leaf_html};
ghost use Rattle.inline_leaves.specs.Leaves.{parts_of};
ghost use Rattle.std.specs.Prelude.{map};
ghost use Rattle.html_inline.specs.GfmTable.{leaf_in};
ghost use Rattle.html_inline.specs.Prints.{Prints};

use crate::autolink::push_autolink;
use crate::code_text::{push_code, push_code_span};
use crate::gfm_autolink_literal::push_literal;
use crate::html_text::push_html_text;
use crate::math_text::push_math;
use crate::printing::Printing;
use html_escape::push_encoded;
use html_heading_text::character_reference::push_number;
use html_heading_text::form::Form;
use inline_leaves::LeafPart;
use markdown_compile_options::CompileOptions;
use markdown_options::Tables;
use std::alloc::{AllocError, Allocator};

/// Prints what a construct says in the description of an image, in a cell or not (CommonMark 6.4).
/// `room` is used for the text of a code span or of math.
pub(crate) fn push_description<A: Allocator>(
    out: &mut String<A>,
    room: &mut String<A>,
    compile: &CompileOptions,
    cell: bool,
    part: LeafPart<'_>,
) -> Result<(), AllocError>
    ensures { Prints result out.old out.new (flat_map (leaf_description compile.now) (map (leaf_in cell) (parts_of part.entry))) }
{
    match part {
        LeafPart::Escape(text) => push_encoded(out, text),
        LeafPart::Character(text) => push_encoded(out, text),
        LeafPart::Number { radix, digits } => push_number(out, Form::Encoded, radix, digits),
        LeafPart::Code(code) => push_code(out, room, cell, code),
        LeafPart::Math(math) => push_code(out, room, cell, math),
        LeafPart::Unclosed(text) => push_encoded(out, text),
        LeafPart::Autolink { text, .. } => push_encoded(out, text),
        LeafPart::Literal { text, .. } => push_encoded(out, text),
        LeafPart::Html(html) => push_html_text(out, compile, true, html),
        LeafPart::LineEnd(ending) => out.push_str(ending.as_str()),
        LeafPart::EscapedBreak => Ok(()),
        LeafPart::TrailingBreak => Ok(()),
        LeafPart::Spaces => Ok(()),
    }
}

/// Prints a construct.
pub(crate) fn push_leaf<A: Allocator + Clone, T: Tables>(
    out: &mut String<A>,
    room: &mut String<A>,
    printing: &Printing<'_, A, T>,
    part: LeafPart<'_>,
) -> Result<(), AllocError>
    ensures { Prints result out.old out.new (flat_map (leaf_html printing.now.compile.now) (map (leaf_in printing.now.cell) (parts_of part.entry))) }
{
    match part {
        LeafPart::Escape(text) => push_encoded(out, text),
        LeafPart::Character(text) => push_encoded(out, text),
        LeafPart::Number { radix, digits } => push_number(out, Form::Encoded, radix, digits),
        LeafPart::Code(code) => push_code_span(out, room, printing.cell, code),
        LeafPart::Math(math) => push_math(out, room, printing.cell, math),
        LeafPart::Unclosed(text) => push_encoded(out, text),
        LeafPart::Autolink { email, text } => {
            push_autolink(out, room, printing.compile, email, text)
        }
        LeafPart::Literal { kind, text } => push_literal(out, room, printing.compile, kind, text),
        LeafPart::Html(html) => push_html_text(out, printing.compile, false, html),
        LeafPart::LineEnd(ending) => out.push_str(ending.as_str()),
        LeafPart::EscapedBreak => out.push_str("<br />"),
        LeafPart::TrailingBreak => out.push_str("<br />"),
        LeafPart::Spaces => Ok(()),
    }
}
