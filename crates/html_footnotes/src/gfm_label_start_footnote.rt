//! Calls of footnotes (in no standard; as GitHub prints them).
//!
//!     call ::= '<sup><a href="#' footnote '" id="' call '" data-footnote-ref="" aria-describedby="footnote-label">' number '</a></sup>'
ghost use Rattle.definition_page.specs.GfmLabelStartFootnote.{call_pieces, call_tag};
ghost use Rattle.definition_page.specs.Tags.{start_tag};
ghost use Rattle.html_bytes.specs.Pieces.{pieces_html};
ghost use Rattle.html_escape.specs.Prints.{Prints};
ghost use Rattle.html_footnotes.specs.Footnotes.{call_view};

use crate::ids::{push_call_id, push_footnote_id};
use markdown_compile_options::CompileOptions;
use std::alloc::{AllocError, Allocator};

/// A call of a footnote.
#[derive(Clone, Copy)]
pub struct Call<'a> {
    /// The label of its footnote as labels are matched.
    pub label: &'a str,
    /// The number of that footnote.
    pub number: usize,
    /// Which of its calls it is, from 1 on.
    pub count: usize,
}

/// Prints a call.
pub fn push_call<A: Allocator>(
    out: &mut String<A>,
    compile: &CompileOptions,
    call: Call<'_>,
) -> Result<(), AllocError>
    ensures { Prints result out.old out.new (pieces_html (call_pieces compile.now (call_view call.entry))) }
{
    out.push_str("<sup>")?;
    push_call_tag(out, compile, call)?;
    write!(out, "{}", call.number)?;
    out.push_str("</a></sup>")
}

/// Prints the start tag of a call.
fn push_call_tag<A: Allocator>(
    out: &mut String<A>,
    compile: &CompileOptions,
    call: Call<'_>,
) -> Result<(), AllocError>
    ensures { Prints result out.old out.new (start_tag (call_tag compile.now (call_view call.entry))) }
{
    out.push_str("<a href=\"#")?;
    push_footnote_id(out, compile, call.label)?;
    out.push_str("\" id=\"")?;
    push_call_id(out, compile, call.label, call.count)?;
    out.push_str("\" data-footnote-ref=\"\" aria-describedby=\"footnote-label\">")?;
    Ok(())
}
