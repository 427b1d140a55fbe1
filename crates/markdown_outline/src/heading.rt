//! Headings, with their places, texts and slugs.
ghost use Rattle.std.specs.Prelude.{◌≡◌, length};
ghost use Rattle.compile_written.specs.Strings.{valid};
ghost use Rattle.markdown_outline.specs.Listed.{IsWithin, part};

use engine_events::place::Point;
use std::alloc::Allocator;

/// A part of a text, by the numbers of bytes before its start and before its end.
#[derive(Clone, Copy, Debug, PartialEq, Eq)]
pub struct Range {
    pub start: usize,
    pub end: usize,
}

/// A heading (CommonMark 4.2 and 4.3).
#[derive(Clone, Copy, Debug, PartialEq, Eq)]
pub struct Heading {
    /// From 1 to 6.
    pub rank: u8,
    /// The index of its enter among the events.
    pub event: usize,
    /// Where it starts.
    pub start: Point,
    /// Where it ends.
    pub end: Point,
    /// Where its text is in `texts` of the outline.
    pub text: Range,
    /// Where its slug is in `texts` of the outline.
    pub slug: Range,
}

/// The headings of a text.
#[derive(Drop)]
pub struct Outline<A: Allocator> {
    /// The headings, in the order in which they start.
    pub headings: Vec<Heading, A>,
    /// Their texts and slugs: the text of the first one, its slug, the text of the second, and so on.
    pub texts: String<A>,
}

impl<A: Allocator> Outline<A> {
    ghost use Rattle.std.specs.Prelude.{◌≡◌, length, string_bytes};
    ghost use Rattle.compile_written.specs.Strings.{valid};
    ghost use Rattle.markdown_outline.specs.Listed.{IsWithin, part};

    /// Returns what a heading of the outline says on the page, without tags, images, hard line breaks,
    /// boxes of tasks and calls of footnotes. Its line endings are those of the page. For a heading of
    /// another outline it is any text.
    pub fn text(&self, heading: &Heading) -> &str
        ensures { IsWithin (length (string_bytes self.now.texts)) heading.now.text → result.now ≡ valid (part (string_bytes self.now.texts) heading.now.text) }
    {
        text_of(part(self.texts.as_bytes(), heading.text))
    }

    /// Returns the slug of a heading of the outline, as GitHub makes the ids of headings. It may be
    /// empty. For a heading of another outline it is any text.
    pub fn slug(&self, heading: &Heading) -> &str
        ensures { IsWithin (length (string_bytes self.now.texts)) heading.now.slug → result.now ≡ valid (part (string_bytes self.now.texts) heading.now.slug) }
    {
        text_of(part(self.texts.as_bytes(), heading.slug))
    }
}

/// A part of some bytes, or none if there is no such part.
fn part(bytes: &[u8], range: Range) -> &[u8]
    ensures { IsWithin (length bytes.now) range → result.now ≡ part bytes.now range }
{
    if range.start <= range.end && range.end <= bytes.len() {
        &bytes[range.start..range.end]
    } else {
        &[]
    }
}

/// Bytes as a text, or no text if they aren't UTF-8.
fn text_of(bytes: &[u8]) -> &str
    ensures { result.now ≡ valid bytes.now }
{
    match std::str::from_utf8(bytes) {
        Ok(text) => text,
        Err(_) => "",
    }
}
