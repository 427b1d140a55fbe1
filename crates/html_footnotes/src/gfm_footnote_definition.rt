//! The footnotes at a page's end (in no standard; as GitHub prints them).
//!
//!     section  ::= '<section ..>' heading '<ol>' footnote+ '</ol>' '</section>'
//!     footnote ::= '<li id="..">' html with ways back '</li>'
//!     back     ::= '<a href="#' call '" ..>↩' ('<sup>' count '</sup>')? '</a>'
ghost use Rattle.std.specs.Prelude.{◌≡◌, ◌≤◌, IfSome, length, map};
ghost use Rattle.std.specs.Str.{IsCharBoundary};
ghost use Rattle.markdown_options.specs.LineEndings.{ending_bytes};
ghost use Rattle.definition_text.specs.Lines.{ends_line};
ghost use Rattle.definition_page.specs.GfmFootnoteDefinition.{back_pieces, back_tag, backs_pieces, count_pieces, ended_size, footnote_pieces};
ghost use Rattle.definition_page.specs.GfmFootnoteDefinition.{footnotes_pieces, heading_pieces, item_tag, listed_pieces, paragraph_end};
ghost use Rattle.definition_page.specs.GfmFootnoteDefinition.{section_heading_name, section_heading_tag, section_pieces, space_after};
ghost use Rattle.definition_page.specs.Tags.{start_tag};
ghost use Rattle.html_bytes.specs.Pieces.{pieces_html};
ghost use Rattle.html_escape.specs.Prints.{Prints};
ghost use Rattle.html_footnotes.specs.Footnotes.{LaysOut, note_view, with_ways_back};

use crate::fresh::push_fresh;
use crate::ids::{push_call_id, push_footnote_id, text_or};
use html_escape::{push_encoded, push_raw};
use markdown_compile_options::CompileOptions;
use markdown_options::LineEnding;
use std::alloc::{AllocError, Allocator};

/// A footnote that is called.
#[derive(Clone, Copy)]
pub struct Footnote<'a> {
    /// Its label as labels are matched.
    pub label: &'a str,
    /// How many calls it has.
    pub calls: usize,
    /// The HTML of its blocks, laid out by itself.
    pub html: &'a str,
}

/// Prints the footnotes of a page by their numbers, if it has any. `ending` is the ending that is
/// printed where the text has none.
pub fn push_section<A: Allocator>(
    out: &mut String<A>,
    compile: &CompileOptions,
    ending: LineEnding,
    notes: &[Footnote<'_>],
) -> Result<(), AllocError>
    ensures { LaysOut (ending_bytes ending) result out.old out.new (section_pieces compile.now (map note_view notes.now)) }
{
    if notes.is_empty() {
        return Ok(());
    }
    push_listed(out, compile, ending, notes)
}

/// Prints the section of these footnotes.
fn push_listed<A: Allocator>(
    out: &mut String<A>,
    compile: &CompileOptions,
    ending: LineEnding,
    notes: &[Footnote<'_>],
) -> Result<(), AllocError>
    ensures { LaysOut (ending_bytes ending) result out.old out.new (listed_pieces compile.now (map note_view notes.now)) }
{
    push_fresh(out, ending)?;
    out.push_str("<section data-footnotes=\"\" class=\"footnotes\">")?;
    push_heading(out, compile)?;
    push_fresh(out, ending)?;
    out.push_str("<ol>")?;
    push_footnotes(out, compile, ending, notes)?;
    push_fresh(out, ending)?;
    out.push_str("</ol>")?;
    push_fresh(out, ending)?;
    out.push_str("</section>")?;
    push_fresh(out, ending)?;
    Ok(())
}

/// Prints the heading.
fn push_heading<A: Allocator>(
    out: &mut String<A>,
    compile: &CompileOptions,
) -> Result<(), AllocError>
    ensures { Prints result out.old out.new (pieces_html (heading_pieces compile.now)) }
{
    push_heading_tag(out, compile)?;
    push_encoded(out, text_or(&compile.gfm_footnote_label, "Footnotes"))?;
    out.push_str("</")?;
    push_heading_name(out, compile)?;
    out.push_str(">")
}

/// Prints the start tag of the heading.
fn push_heading_tag<A: Allocator>(
    out: &mut String<A>,
    compile: &CompileOptions,
) -> Result<(), AllocError>
    ensures { Prints result out.old out.new (start_tag (section_heading_tag (section_heading_name compile.now) compile.now.gfm_footnote_label_attributes)) }
{
    out.push_str("<")?;
    push_heading_name(out, compile)?;
    out.push_str(" id=\"footnote-label\" ")?;
    out.push_str(text_or(&compile.gfm_footnote_label_attributes, "class=\"sr-only\""))?;
    out.push_str(">")
}

/// Prints the name of the heading's element.
fn push_heading_name<A: Allocator>(
    out: &mut String<A>,
    compile: &CompileOptions,
) -> Result<(), AllocError>
    ensures { Prints result out.old out.new (section_heading_name compile.now) }
{
    push_encoded(out, text_or(&compile.gfm_footnote_label_tag_name, "h2"))
}

/// Prints footnotes by their numbers.
fn push_footnotes<A: Allocator>(
    out: &mut String<A>,
    compile: &CompileOptions,
    ending: LineEnding,
    notes: &[Footnote<'_>],
) -> Result<(), AllocError>
    ensures { LaysOut (ending_bytes ending) result out.old out.new (footnotes_pieces compile.now (map note_view notes.now)) }
{
    for note in notes {
        push_footnote(out, compile, ending, *note)?;
    }
    Ok(())
}

/// Prints a footnote.
fn push_footnote<A: Allocator>(
    out: &mut String<A>,
    compile: &CompileOptions,
    ending: LineEnding,
    note: Footnote<'_>,
) -> Result<(), AllocError>
    ensures { LaysOut (ending_bytes ending) result out.old out.new (footnote_pieces compile.now (note_view note.entry)) }
{
    push_fresh(out, ending)?;
    push_item_tag(out, compile, note.label)?;
    push_fresh(out, ending)?;
    push_content(out, compile, ending, note)?;
    push_fresh(out, ending)?;
    out.push_str("</li>")
}

/// Prints the start tag of a footnote with this label.
fn push_item_tag<A: Allocator>(
    out: &mut String<A>,
    compile: &CompileOptions,
    label: &str,
) -> Result<(), AllocError>
    ensures { Prints result out.old out.new (start_tag (item_tag compile.now label.now)) }
{
    out.push_str("<li id=\"")?;
    push_footnote_id(out, compile, label)?;
    out.push_str("\">")
}

/// Prints the HTML of a footnote with its ways back: in the paragraph that it ends with, or on a
/// line of their own.
fn push_content<A: Allocator>(
    out: &mut String<A>,
    compile: &CompileOptions,
    ending: LineEnding,
    note: Footnote<'_>,
) -> Result<(), AllocError>
    ensures { LaysOut (ending_bytes ending) result out.old out.new (with_ways_back compile.now (note_view note.entry)) }
{
    match paragraph_end(note.html) {
        Some(end) => {
            let (front, after) = note.html.split_at(end);
            push_raw(out, front, false)?;
            out.push_str(" ")?;
            push_backs(out, compile, note.label, note.calls)?;
            push_raw(out, after, false)
        }
        None => {
            push_raw(out, note.html, false)?;
            push_fresh(out, ending)?;
            push_backs(out, compile, note.label, note.calls)
        }
    }
}

/// Where the end tag of a paragraph stands that comes last, line endings aside.
fn paragraph_end(html: &str) -> Option<usize>
    ensures end { result ≡ paragraph_end html.now }
    ensures place { IfSome result (λ end. IsCharBoundary html.now end) }
{
    let bytes = html.as_bytes();
    let size = ended_size(bytes);
    if bytes[..size].ends_with(b"</p>") {
        Some(size - 4)
    } else {
        None
    }
}

/// How many bytes of HTML stand before the line endings at its end.
fn ended_size(html: &[u8]) -> usize
    ensures size { result ≡ ended_size html.now }
    ensures place { result ≤ length html.now }
{
    let mut size = html.len();
    while size > 0 && ends_line(html[size - 1]) {
        size -= 1;
    }
    size
}

fn ends_line(byte: u8) -> bool
    ensures { result ≡ ends_line byte }
{
    byte == b'\n' || byte == b'\r'
}

/// Prints a way back to each of so many calls.
fn push_backs<A: Allocator>(
    out: &mut String<A>,
    compile: &CompileOptions,
    label: &str,
    calls: usize,
) -> Result<(), AllocError>
    ensures { Prints result out.old out.new (pieces_html (backs_pieces compile.now label.now calls)) }
{
    for count in 0..calls {
        push_space(out, count)?;
        push_back(out, compile, label, count + 1)?;
    }
    Ok(())
}

/// Prints a space after so many ways back, if there are any.
fn push_space<A: Allocator>(out: &mut String<A>, count: usize) -> Result<(), AllocError>
    ensures { Prints result out.old out.new (pieces_html (space_after count)) }
{
    if count == 0 {
        return Ok(());
    }
    out.push_str(" ")
}

/// Prints a way back to a call, which is the `count`th of its footnote.
fn push_back<A: Allocator>(
    out: &mut String<A>,
    compile: &CompileOptions,
    label: &str,
    count: usize,
) -> Result<(), AllocError>
    ensures { Prints result out.old out.new (pieces_html (back_pieces compile.now label.now count)) }
{
    push_back_tag(out, compile, label, count)?;
    out.push_str("↩")?;
    push_count(out, count)?;
    out.push_str("</a>")?;
    Ok(())
}

/// Prints the start tag of a way back to a call.
fn push_back_tag<A: Allocator>(
    out: &mut String<A>,
    compile: &CompileOptions,
    label: &str,
    count: usize,
) -> Result<(), AllocError>
    ensures { Prints result out.old out.new (start_tag (back_tag compile.now label.now count)) }
{
    out.push_str("<a href=\"#")?;
    push_call_id(out, compile, label, count)?;
    out.push_str("\" data-footnote-backref=\"\" aria-label=\"")?;
    push_encoded(
        out,
        text_or(&compile.gfm_footnote_back_label, "Back to content"),
    )?;
    out.push_str("\" class=\"data-footnote-backref\">")?;
    Ok(())
}

/// Prints which call a way back leads to, from the second one on.
fn push_count<A: Allocator>(out: &mut String<A>, count: usize) -> Result<(), AllocError>
    ensures { Prints result out.old out.new (pieces_html (count_pieces count)) }
{
    if count <= 1 {
        return Ok(());
    }
    write!(out, "<sup>{count}</sup>")
}
