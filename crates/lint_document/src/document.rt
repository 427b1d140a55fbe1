//! A text with its events, as the rules read it.
ghost use Rattle.std.specs.Prelude.{length};
ghost use Rattle.std.specs.Iterator.{at_most};

use crate::span::Span;
use engine_events::event::{Event, Kind, Name};

/// A text with its events.
#[derive(Clone, Copy)]
pub struct Document<'a> {
    /// The text.
    pub bytes: &'a [u8],
    /// Its events.
    pub events: &'a [Event],
    /// Whether it was read as GitHub Flavored Markdown.
    pub gfm: bool,
}

impl<'a> Document<'a> {
    /// The events, with the bytes between them.
    pub fn steps(&self) -> Steps<'a> {
        Steps {
            bytes: self.bytes,
            events: self.events,
            index: 0,
        }
    }

    /// The events from one of them on, by its number, with the bytes between them.
    pub fn steps_from(&self, number: usize) -> Steps<'a> {
        let events = match self.events.get(number..) {
            Some(events) => events,
            None => &[],
        };
        let index = match events.first() {
            Some(event) => event.point().index,
            None => 0,
        };
        Steps {
            bytes: self.bytes,
            events,
            index,
        }
    }

    /// The bytes of a part of the text.
    pub fn bytes_of(&self, span: Span) -> &'a [u8] {
        between(self.bytes, span.start, span.end)
    }

    /// The part from an index to the end of its line, without the line ending.
    pub fn to_line_end(&self, start: usize) -> Span {
        let bytes = between(self.bytes, start, self.bytes.len());
        let size = bytes.iter().take_while(|byte| !is_ending(**byte)).count();
        Span {
            start,
            end: start.saturating_add(size),
        }
    }
}

/// The bytes from an index to another, or none where there are no such bytes.
fn between(bytes: &[u8], start: usize, end: usize) -> &[u8] {
    if start <= end && end <= bytes.len() {
        &bytes[start..end]
    } else {
        &bytes[..0]
    }
}

/// Whether bytes are white space (CommonMark 2.1), or there are none.
pub fn is_blank(bytes: &[u8]) -> bool {
    bytes.iter().all(|byte| is_white(*byte))
}

/// Whether a byte is a space, a tab, or of a line ending (CommonMark 2.1).
pub fn is_white(byte: u8) -> bool {
    is_space(byte) || is_ending(byte)
}

/// Whether a byte is a space or a tab (CommonMark 2.1).
pub fn is_space(byte: u8) -> bool {
    matches!(byte, b' ' | b'\t')
}

/// Whether a byte is of a line ending (CommonMark 2.1).
fn is_ending(byte: u8) -> bool {
    matches!(byte, b'\n' | b'\r')
}

/// An event of a text, and the bytes between the event before it and this one: at the exit of a
/// void event those of that event.
#[derive(Clone, Copy)]
pub struct Step<'a> {
    pub kind: Kind,
    pub name: Name,
    /// The number of bytes before the bytes.
    pub start: usize,
    /// The number of bytes before the event.
    pub index: usize,
    /// The line that the event is on, from 1.
    pub line: usize,
    /// Its column, from 1: a byte takes one, a tab those up to the next tab stop.
    pub column: usize,
    pub bytes: &'a [u8],
}

impl Step<'_> {
    /// Whether a line ends where this event is.
    pub fn ends_line(&self) -> bool {
        self.kind == Kind::Enter && matches!(self.name, Name::LineEnding | Name::BlankLineEnding)
    }

    /// Whether a line begins where this event is, after an ending or a byte order mark.
    pub fn starts_line(&self) -> bool {
        self.kind == Kind::Exit
            && matches!(
                self.name,
                Name::LineEnding | Name::BlankLineEnding | Name::ByteOrderMark
            )
    }

    /// Where the bytes are.
    pub fn span(&self) -> Span {
        Span {
            start: self.start,
            end: self.index,
        }
    }
}

/// The events of a text that are left, and the index of the last one.
#[derive(Drop)]
pub struct Steps<'a> {
    bytes: &'a [u8],
    events: &'a [Event],
    index: usize,
}

impl<'a> Iterator for Steps<'a> {
    type Item = Step<'a>;

    ghost remaining = { λ s. at_most (length s.events.now) };

    fn next(&mut self) -> Option<Step<'a>> {
        let (event, others) = self.events.split_first()?;
        let point = event.point();
        let index = point.index;
        let step = Step {
            kind: event.kind,
            name: event.name,
            start: self.index,
            index,
            line: point.line,
            column: point.column,
            bytes: between(self.bytes, self.index, index),
        };
        self.events = others;
        self.index = index;
        Some(step)
    }
}

/// How many events of some kind are open.
#[derive(Clone, Copy, Default)]
pub struct Depth(usize);

impl Depth {
    /// Counts the enter or exit of one.
    pub fn count(&mut self, kind: Kind) {
        self.0 = match kind {
            Kind::Enter => self.0.saturating_add(1),
            Kind::Exit => self.0.saturating_sub(1),
        };
    }

    /// Whether one is open.
    pub fn is_inside(self) -> bool {
        self.0 > 0
    }
}
