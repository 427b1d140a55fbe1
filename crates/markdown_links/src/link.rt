//! Links, with their places and destinations.
ghost use Rattle.std.specs.Prelude.{◌≡◌, length, slice_range};
ghost use Rattle.compile_written.specs.Strings.{valid};
ghost use Rattle.markdown_links.specs.Listed.{IsWithin};

use crate::kind::LinkKind;
use engine_events::place::Point;
use std::alloc::Allocator;

/// A part of a text, by the numbers of bytes before its start and before its end.
#[derive(Clone, Copy, Debug, PartialEq, Eq)]
pub struct Range {
    pub start: usize,
    pub end: usize,
}

/// What leads somewhere, or defines where a label leads.
#[derive(Clone, Copy, Debug, PartialEq, Eq)]
pub struct Link {
    pub kind: LinkKind,
    /// The index of its enter among the events.
    pub event: usize,
    /// Where it starts.
    pub start: Point,
    /// Where it ends.
    pub end: Point,
    /// Where its destination is in `destinations` of the list.
    pub destination: Range,
    /// For a link or an image by reference: the index in the list of the definition that its label
    /// leads to.
    pub definition: Option<usize>,
}

/// The links of a text.
#[derive(Drop)]
pub struct Links<A: Allocator> {
    /// The links, in the order in which they start.
    pub links: Vec<Link, A>,
    /// Their destinations. A definition and the links that lead to it share one.
    pub destinations: String<A>,
}

impl<A: Allocator> Links<A> {
    ghost use Rattle.std.specs.Prelude.{◌≡◌, length, slice_range, string_bytes};
    ghost use Rattle.compile_written.specs.Strings.{valid};
    ghost use Rattle.markdown_links.specs.Listed.{IsWithin};

    /// Returns the destination of a link of the list, as it is before a page percent-encodes it:
    /// escapes and character references are replaced by what they stand for, `mailto:` is before an
    /// email address, and `http://` before `www.`. For a link of another list it is any text.
    pub fn destination(&self, link: &Link) -> &str
        ensures { IsWithin (length (string_bytes self.now.destinations)) link.now.destination →
            result.now ≡ valid (slice_range (string_bytes self.now.destinations) link.now.destination.start link.now.destination.end) }
    {
        text_of(part(self.destinations.as_bytes(), link.destination))
    }
}

/// A part of some bytes, or none if there is no such part.
fn part(bytes: &[u8], range: Range) -> &[u8]
    ensures { IsWithin (length bytes.now) range → result.now ≡ slice_range bytes.now range.start range.end }
{
    if range.start <= range.end && range.end <= bytes.len() {
        &bytes[range.start..range.end]
    } else {
        &[]
    }
}

/// Bytes as a text, or no text if they aren't UTF-8.
pub(crate) fn text_of(bytes: &[u8]) -> &str
    ensures { result.now ≡ valid bytes.now }
{
    match std::str::from_utf8(bytes) {
        Ok(text) => text,
        Err(_) => "",
    }
}
