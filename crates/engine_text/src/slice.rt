//! Parts of a text between two places, which may be inside of tabs (CommonMark 2.2).
ghost use Rattle.std.specs.Prelude.{◌≡◌, ◌<◌, ◌+◌, ◌^◌, ◌++◌, length, replicate, OnOk, string_bytes};
ghost use Rattle.engine_text.specs.Slices.{enters, last_enter, index_past, columns_left};

use engine_events::event::Name;
use engine_events::place::tab_size;
use engine_events::{Event, Kind, Point};
use markdown_options::Message;
use std::alloc::{AllocError, Allocator};

/// Two places of a text, the first not after the second.
#[derive(Clone, Copy, Debug, PartialEq, Eq)]
pub struct Position {
    pub start: Point,
    pub end: Point,
}

impl Position {
    ghost use Rattle.std.specs.Prelude.{◌≡◌, ◌<◌, length, take, slice_get, IsSome, IfSome};
    ghost use Rattle.engine_events.specs.Events.{point_of};
    ghost use Rattle.engine_text.specs.Slices.{last_enter};

    /// From the enter to the exit of the event whose exit stands at an index.
    ///
    /// The enter is the nearest one of its name before.
    pub fn from_exit_event(events: &[Event], index: usize) -> Position
        requires within { index < length events.now }
        requires entered { IfSome (slice_get events.now index)
            (λ exit. IsSome (last_enter exit.name (take index events.now))) }
        ensures start { IfSome (slice_get events.now index)
            (λ exit. IfSome (last_enter exit.name (take index events.now)) (λ enter. result.start ≡ point_of enter)) }
        ensures end { IfSome (slice_get events.now index) (λ exit. result.end ≡ point_of exit) }
    {
        let exit = events[index];
        match last_enter(&events[..index], exit.name) {
            Some(enter) => Position {
                start: enter.point(),
                end: exit.point(),
            },
            None => unreachable!(),
        }
    }

    /// The indices of both places in bytes.
    pub fn to_indices(&self) -> (usize, usize)
        ensures { result ≡ (self.now.start.index, self.now.end.index) }
    {
        (self.start.index, self.end.index)
    }
}

/// A part of a text, with the columns of the tabs that are cut at its ends.
#[derive(Clone, Copy, Debug, PartialEq, Eq)]
pub struct Slice<'a> {
    pub bytes: &'a [u8],
    /// The columns of a tab that began earlier.
    pub before: usize,
    /// The columns past the first of a tab that goes on later.
    pub after: usize,
    pub ghost fits: { before + length bytes.now + after < 2 ^ 62 },
}

impl<'a> Slice<'a> {
    ghost use Rattle.std.specs.Prelude.{◌≡◌, ◌≤◌, ◌<◌, ◌+◌, ◌^◌, length, IsUtf8, IfErr, IfOk, string_bytes};
    ghost use Rattle.markdown_options.specs.Messages.{IsOutOfMemory};
    ghost use Rattle.engine_events.specs.Columns.{between};
    ghost use Rattle.engine_text.specs.Slices.{index_past, spaces_before, spaces_after};
    ghost use Rattle.engine_text.specs.Serialization.{serialization};

    /// The part between two places.
    ///
    /// A tab that is cut at the end belongs to the bytes, one that is cut at the start doesn't.
    pub fn from_position(bytes: &'a [u8], position: &Position) -> Slice<'a>
        requires size { length bytes.now < 2 ^ 61 }
        requires order { index_past position.now.start ≤ index_past position.now.end }
        requires within { index_past position.now.end ≤ length bytes.now }
        ensures bytes { result.bytes.now
            ≡ between (index_past position.now.start) (index_past position.now.end) bytes.now }
        ensures before { result.before ≡ spaces_before position.now.start position.now.end }
        ensures after { result.after ≡ spaces_after position.now.start position.now.end }
    {
        let Position { start, end } = *position;
        let (before, after) = if start.vs > 0 && start.index == end.index {
            (end.vs.saturating_sub(start.vs), 0)
        } else {
            (columns_left(start), end.vs.saturating_sub(1))
        };
        Slice {
            bytes: &bytes[index_past(start)..index_past(end)],
            before: before as usize,
            after: after as usize,
        }
    }

    /// The part between two indices.
    pub fn from_indices(bytes: &'a [u8], start: usize, end: usize) -> Slice<'a>
        requires size { length bytes.now < 2 ^ 61 }
        requires order { start ≤ end }
        requires within { end ≤ length bytes.now }
        ensures bytes { result.bytes.now ≡ between start end bytes.now }
        ensures before { result.before ≡ 0 }
        ensures after { result.after ≡ 0 }
    {
        Slice {
            bytes: &bytes[start..end],
            before: 0,
            after: 0,
        }
    }

    /// The size in bytes of what [`Slice::serialize`] gives.
    pub fn len(&self) -> usize
        ensures { result ≡ length (serialization self.now) }
    {
        self.before + self.bytes.len() + self.after
    }

    /// The bytes: with a tab that is cut at the end, without one that is cut at the start.
    pub fn as_str(&self) -> &str
        requires { IsUtf8 self.now.bytes.now }
        ensures { result.now ≡ self.now.bytes.now }
    {
        unsafe { str::from_utf8_unchecked(self.bytes) }
    }

    /// The bytes, between the columns of tabs that are cut at the ends, as spaces.
    pub fn serialize<A: Allocator>(&self, alloc: A) -> Result<String<A>, Message>
        requires { IsUtf8 self.now.bytes.now }
        ensures text { IfOk result (λ text. string_bytes text ≡ serialization self.now) }
        ensures memory { IfErr result IsOutOfMemory }
    {
        let mut text = String::new(alloc);
        push_spaces(&mut text, self.before)?;
        text.push_str(self.as_str())?;
        push_spaces(&mut text, self.after)?;
        Ok(text)
    }
}

/// The last enter of a name.
fn last_enter(events: &[Event], name: Name) -> Option<Event>
    ensures { result ≡ last_enter name events.now }
{
    let mut left = events.len();
    while left > 0 {
        left -= 1;
        if enters(&events[left], name) {
            return Some(events[left]);
        }
    }
    None
}

/// Whether an event enters something of a name.
fn enters(event: &Event, name: Name) -> bool
    ensures { result ≡ enters name event.now }
{
    match event.kind {
        Kind::Enter => event.name == name,
        Kind::Exit => false,
    }
}

/// The index after what begins before a place: a tab begins before its later columns.
fn index_past(point: Point) -> usize
    requires { point.index < 2 ^ 62 }
    ensures { result ≡ index_past point }
{
    if point.vs > 0 {
        point.index + 1
    } else {
        point.index
    }
}

/// The columns left of a tab that begins before a place.
fn columns_left(point: Point) -> u8
    ensures { result ≡ columns_left point }
{
    if point.vs > 0 {
        tab_size(point.column) as u8
    } else {
        0
    }
}

/// Adds spaces to a text.
fn push_spaces<A: Allocator>(text: &mut String<A>, count: usize) -> Result<(), AllocError>
    ensures { OnOk result (string_bytes text.new ≡ string_bytes text.old ++ replicate count 32) }
{
    for _ in 0..count {
        text.push_str(" ")?;
    }
    Ok(())
}
