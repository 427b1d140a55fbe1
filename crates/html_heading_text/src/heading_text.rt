//! What a heading says: its text without tags, images, raw HTML, hard line breaks, boxes of tasks
//! and calls of footnotes. NUL is U+FFFD. An id is made of a text without line endings; the text in
//! an outline has them.
ghost use Rattle.std.specs.Prelude.{◌≡◌, ◌≤◌, ◌<◌, ◌+◌, ◌^◌, ℕ};
ghost use Rattle.std.specs.List.{flat_map, fold};
ghost use Rattle.definition_inline.specs.CodeText.{code_text, without_padding};
ghost use Rattle.definition_inline.specs.Inline.{Inlines, LinkTexts, Target};
ghost use Rattle.definition_page.specs.HeadingText.{heading_text};
ghost use Rattle.definition_text.specs.Content.{content_codes, line_ending_code};
ghost use Rattle.definition_text.specs.Encode.{plain};
ghost use Rattle.html_escape.specs.Prints.{Prints};
ghost use Rattle.inline_leaves.specs.Leaves.{parts_of};
ghost use Rattle.inline_rows.specs.InlineRows.{inline_rows};
ghost use Rattle.inline_rows.specs.View.{row_view, rows_view, spelled_view};
ghost use Rattle.html_heading_text.specs.HeadingLines.{ending_says, heading_lines, leaf_says, lines_say};
ghost use Rattle.html_heading_text.specs.HeadingRows.{one_more, row_says, rows_say, silent_after};

use crate::character_reference::push_number;
use crate::code_text::{push_spaced, without_padding};
use crate::form::Form;
use html_escape::push_raw;
use inline_leaves::LeafPart;
use inline_rows::{InlineRow, SpelledLeaf};
use markdown_options::LineEnding;
use std::alloc::{AllocError, Allocator};

/// Whether a heading says its line endings.
#[derive(Clone, Copy)]
pub enum Endings {
    /// It says them, as in an outline.
    Kept,
    /// It doesn't, as in an id.
    Dropped,
}

/// Appends what a heading says without its line endings: where these are the rows of its content,
/// its text without tags, images, raw HTML, line endings, boxes of tasks and calls of footnotes.
/// `room` is overwritten.
pub fn push_heading_text<A: Allocator>(
    out: &mut String<A>,
    room: &mut String<A>,
    rows: &[InlineRow<'_>],
) -> Result<(), AllocError>
    ensures { (at : ℕ → LinkTexts) (leads : Target → LinkTexts) (is : Inlines) →
        rows_view at rows.now ≡ inline_rows leads is → Prints result out.old out.new (heading_text is) }
{
    push_rows(out, room, Endings::Dropped, rows)
}

/// Appends what a heading says with its line endings. `room` is overwritten.
pub fn push_heading_lines<A: Allocator>(
    out: &mut String<A>,
    room: &mut String<A>,
    rows: &[InlineRow<'_>],
) -> Result<(), AllocError>
    ensures { (at : ℕ → LinkTexts) (leads : Target → LinkTexts) (is : Inlines) →
        rows_view at rows.now ≡ inline_rows leads is → Prints result out.old out.new (heading_lines is) }
{
    push_rows(out, room, Endings::Kept, rows)
}

/// Appends what rows say.
fn push_rows<A: Allocator>(
    out: &mut String<A>,
    room: &mut String<A>,
    endings: Endings,
    rows: &[InlineRow<'_>],
) -> Result<(), AllocError>
    ensures { (at : ℕ → LinkTexts) → Prints result out.old out.new (rows_say endings 0 (rows_view at rows.now)) }
{
    let mut silent: usize = 0;
    for row in rows {
        if silent == 0 {
            push_row(out, room, endings, *row)?;
        }
        silent = silent_after(silent, *row);
    }
    Ok(())
}

/// How many parts are open from the outermost image on, after a row. `silent` is that number before
/// the row.
fn silent_after(silent: usize, row: InlineRow<'_>) -> usize
    requires { silent + 1 < 2 ^ 64 }
    ensures after { (at : ℕ → LinkTexts) → result ≡ fold silent_after silent (row_view at row.entry) }
    ensures fits { result ≤ silent + 1 }
{
    match row {
        InlineRow::EnterSpan(_) => one_more(silent),
        InlineRow::EnterLink(_) => one_more(silent),
        InlineRow::EnterImage(_) => silent + 1,
        InlineRow::Exit => silent.saturating_sub(1),
        InlineRow::Text(_) => silent,
        InlineRow::Verbatim(_) => silent,
        InlineRow::Leaf(_) => silent,
        InlineRow::Spelled(_) => silent,
        InlineRow::Call(_) => silent,
    }
}

/// One part more is open, if an image is.
fn one_more(silent: usize) -> usize
    requires { silent + 1 < 2 ^ 64 }
    ensures more { result ≡ one_more silent }
    ensures fits { result ≤ silent + 1 }
{
    if silent == 0 { 0 } else { silent + 1 }
}

/// Appends what a row says that isn't in an image.
fn push_row<A: Allocator>(
    out: &mut String<A>,
    room: &mut String<A>,
    endings: Endings,
    row: InlineRow<'_>,
) -> Result<(), AllocError>
    ensures { (at : ℕ → LinkTexts) → Prints result out.old out.new (flat_map (row_says endings) (row_view at row.entry)) }
{
    match row {
        InlineRow::Text(text) => push_raw(out, text, false),
        InlineRow::Verbatim(verbatim) => push_lines(out, endings, verbatim.text),
        InlineRow::Leaf(part) => push_part(out, room, endings, part),
        InlineRow::Spelled(leaf) => push_spelled(out, leaf),
        InlineRow::EnterSpan(_) => Ok(()),
        InlineRow::EnterLink(_) => Ok(()),
        InlineRow::EnterImage(_) => Ok(()),
        InlineRow::Call(_) => Ok(()),
        InlineRow::Exit => Ok(()),
    }
}

/// Appends what verbatim text says, in which an LF is a line ending.
fn push_lines<A: Allocator>(
    out: &mut String<A>,
    endings: Endings,
    text: &str,
) -> Result<(), AllocError>
    ensures { Prints result out.old out.new (lines_say endings text.now) }
{
    let mut rest = text;
    while let Some((line, others)) = rest.split_once('\n') {
        push_raw(out, line, false)?;
        push_ending(out, endings, LineEnding::LineFeed)?;
        rest = others;
    }
    push_raw(out, rest, false)
}

/// Appends what a construct says that holds no other.
fn push_part<A: Allocator>(
    out: &mut String<A>,
    room: &mut String<A>,
    endings: Endings,
    part: LeafPart<'_>,
) -> Result<(), AllocError>
    ensures { Prints result out.old out.new (flat_map (leaf_says endings) (parts_of part.entry)) }
{
    match part {
        LeafPart::Escape(text) => push_raw(out, text, false),
        LeafPart::Character(text) => push_raw(out, text, false),
        LeafPart::Number { radix, digits } => push_number(out, Form::Plain, radix, digits),
        LeafPart::Code(code) => push_code(out, room, code),
        LeafPart::Math(math) => push_code(out, room, math),
        LeafPart::Unclosed(text) => push_raw(out, text, false),
        LeafPart::Autolink { text, .. } => push_raw(out, text, false),
        LeafPart::Literal { text, .. } => push_raw(out, text, false),
        LeafPart::LineEnd(ending) => push_ending(out, endings, ending),
        LeafPart::Html(_) => Ok(()),
        LeafPart::EscapedBreak => Ok(()),
        LeafPart::TrailingBreak => Ok(()),
        LeafPart::Spaces => Ok(()),
    }
}

/// Appends a line ending, if it is kept.
fn push_ending<A: Allocator>(
    out: &mut String<A>,
    endings: Endings,
    ending: LineEnding,
) -> Result<(), AllocError>
    ensures { Prints result out.old out.new (ending_says endings (line_ending_code ending)) }
{
    match endings {
        Endings::Kept => out.push_str(ending.as_str()),
        Endings::Dropped => Ok(()),
    }
}

/// Appends what a construct says, as events spell it.
fn push_spelled<A: Allocator>(out: &mut String<A>, leaf: SpelledLeaf<'_>) -> Result<(), AllocError>
    ensures { (endings : Endings) → Prints result out.old out.new (leaf_says endings (spelled_view leaf.entry)) }
{
    match leaf {
        SpelledLeaf::Code(text) => push_unpadded(out, text),
        SpelledLeaf::Math(text) => push_unpadded(out, text),
        SpelledLeaf::Check(_) => Ok(()),
    }
}

/// Appends the text of a code span or of math. `spaces` is overwritten.
fn push_code<A: Allocator>(
    out: &mut String<A>,
    spaces: &mut String<A>,
    code: &str,
) -> Result<(), AllocError>
    ensures { Prints result out.old out.new (plain (code_text (content_codes code.now))) }
{
    spaces.clear();
    push_spaced(spaces, code)?;
    push_unpadded(out, spaces.as_str())
}

/// Appends the text of a code span or of math that has no line endings.
fn push_unpadded<A: Allocator>(out: &mut String<A>, text: &str) -> Result<(), AllocError>
    ensures { Prints result out.old out.new (plain (without_padding text.now)) }
{
    push_raw(out, without_padding(text), false)
}
