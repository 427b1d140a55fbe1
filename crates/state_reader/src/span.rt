//! Containers, by the lines and events at which they begin and end.
ghost use Rattle.std.specs.Prelude.{◌≡◌};
ghost use Rattle.std.specs.List.{fold};
ghost use Rattle.state_reader.specs.Span.{closed_at, kind_of, marked_at};

use markdown_engine::container::Container;
use std::alloc::Allocator;

/// A container that began.
#[derive(Clone, Copy, Debug, PartialEq, Eq)]
pub struct Span {
    pub kind: Container,
    /// The index of the document's event at which it begins.
    pub start: usize,
    /// The last line that has a marker of it.
    pub marker: usize,
    /// The line at which it isn't open any more.
    pub close: usize,
    /// The index of the container around it.
    pub parent: Option<usize>,
}

/// The kind of the container that begins, by the number of what was tried.
pub(crate) fn kind_of(number: u8) -> Container
    ensures { result ≡ kind_of number }
{
    match number {
        0 => Container::BlockQuote,
        1 => Container::ListItem,
        _ => Container::GfmFootnoteDefinition,
    }
}

/// Keeps that one isn't open any more at a line.
fn close_one<B: Allocator>(spans: &mut Vec<Span, B>, index: usize, line: usize)
    ensures { spans.new.items ≡ closed_at line spans.old.items index }
{
    if let Some(span) = spans.get_mut(index) {
        span.close = line;
    }
}

/// Keeps that these aren't open any more at a line.
pub(crate) fn close_all<B: Allocator>(spans: &mut Vec<Span, B>, indices: &[usize], line: usize)
    ensures { spans.new.items ≡ fold (closed_at line) spans.old.items indices.now }
{
    for index in indices {
        close_one(spans, *index, line);
    }
}

/// Keeps that a line has a marker of one.
pub(crate) fn mark_one<B: Allocator>(spans: &mut Vec<Span, B>, index: usize, line: usize)
    ensures { spans.new.items ≡ marked_at line spans.old.items index }
{
    if let Some(span) = spans.get_mut(index) {
        span.marker = line;
    }
}
