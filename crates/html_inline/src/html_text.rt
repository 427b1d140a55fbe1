//! Raw HTML in a text (CommonMark 6.6).
//!
//! Spaces and tabs at the start of its second line and of later ones aren't printed.
ghost use Rattle.std.specs.Prelude.{◌≡◌, ◌<◌, ◌≤◌, IfOk, drop, length, string_bytes};
ghost use Rattle.definition_text.specs.Content.{content_codes};
ghost use Rattle.definition_text.specs.Columns.{bare};
ghost use Rattle.definition_page.specs.InlinePieces.{html_lines, html_says};
ghost use Rattle.html_bytes.specs.InlineHtml.{say_bytes};
ghost use Rattle.html_inline.specs.HtmlBytes.{first_bytes, PrintsEnding};
ghost use Rattle.html_inline.specs.Prints.{Prints};

use html_escape::push_html;
use html_heading_text::code_text::line_size;
use inline_leaves::cut::{cut_after, text_before};
use inline_leaves::line_ending::ending_at;
use inline_leaves::space::white_size;
use markdown_compile_options::CompileOptions;
use std::alloc::{AllocError, Allocator};

/// Prints raw HTML in a text, or in the description of an image (CommonMark 6.6).
pub(crate) fn push_html_text<A: Allocator>(
    out: &mut String<A>,
    compile: &CompileOptions,
    described: bool,
    html: &str,
) -> Result<(), AllocError>
    ensures { Prints result out.old out.new (say_bytes (html_says described compile.now (content_codes html.now))) }
{
    let mut rest = push_line(out, compile, described, html)?;
    while !rest.is_empty() {
        rest = push_line(out, compile, described, without_indent(rest))?;
    }
    Ok(())
}

/// A text without the spaces and tabs that it begins with.
fn without_indent(text: &str) -> &str
    ensures codes { content_codes result.now ≡ bare (content_codes text.now) }
    ensures shorter { length result.now ≤ length text.now }
{
    let size = white_size(text.as_bytes());
    &text[size..]
}

/// Prints the first line and its ending, and returns what follows.
fn push_line<'a, A: Allocator>(
    out: &mut String<A>,
    compile: &CompileOptions,
    described: bool,
    html: &'a str,
) -> Result<&'a str, AllocError>
    ensures printed { Prints result out.old out.new (first_bytes described compile.now (html_lines (content_codes html.now))) }
    ensures rest { IfOk result (λ rest. html_lines (content_codes rest.now) ≡ drop 1 (html_lines (content_codes html.now))) }
    ensures within { IfOk result (λ rest. length rest.now ≤ length html.now) }
    ensures shorter { IfOk result (λ rest. 0 < length html.now → length rest.now < length html.now) }
{
    let size = line_size(html.as_bytes());
    push_html(out, compile, described, text_before(html, size))?;
    let rest = push_ending(out, &html[size..])?;
    Ok(rest)
}

/// Prints the line ending that a text begins with, if it does, and returns what follows.
fn push_ending<'a, A: Allocator>(out: &mut String<A>, text: &'a str) -> Result<&'a str, AllocError>
    ensures { IfOk result (λ rest. PrintsEnding text.now rest.now (string_bytes out.old) (string_bytes out.new)) }
{
    let Some(found) = ending_at(text.as_bytes()) else {
        return Ok(text);
    };
    out.push_str(found.ending.as_str())?;
    Ok(cut_after(text, found.size))
}
