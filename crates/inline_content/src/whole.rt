//! The content of whole lines, which stand right after another in the text (CommonMark 4.8).
ghost use Rattle.std.specs.Prelude.{◌≡◌, ℕ, Bool};
ghost use Rattle.definition_text.specs.Ascii.{line_feed, carriage_return};
ghost use Rattle.definition_text.specs.Content.{content_text};
ghost use Rattle.text_pieces.specs.Pieces.{whole_lines};
ghost use Rattle.inline_content.specs.Endings.{without_last};
ghost use Rattle.inline_content.specs.View.{content_view, whole_view};

use crate::content::Content;
use markdown_options::Kind;

/// The content of the lines of a text, without the last ending.
#[inline(always)]
pub fn whole_content(text: &str) -> Content<'_>
    ensures { (is_punctuation : ℕ → Bool) → content_view is_punctuation result ≡ whole_view is_punctuation text.now }
{
    Content {
        text: without_ending(text),
        marks: &[],
        after: Kind::Whitespace,
    }
}

/// A text without its last line ending (CommonMark 2.1).
fn without_ending(text: &str) -> &str
    ensures { result.now ≡ content_text (whole_lines text.now) }
{
    without_return(without_feed(text))
}

/// A text without an LF at its end.
fn without_feed(text: &str) -> &str
    ensures { result.now ≡ without_last line_feed text.now }
{
    match text.strip_suffix('\n') {
        Some(front) => front,
        None => text,
    }
}

/// A text without a CR at its end.
fn without_return(text: &str) -> &str
    ensures { result.now ≡ without_last carriage_return text.now }
{
    match text.strip_suffix('\r') {
        Some(front) => front,
        None => text,
    }
}
