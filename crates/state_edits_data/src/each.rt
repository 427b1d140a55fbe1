//! What edits are found by and made of: events of a list, places of a text, the bytes of data.
ghost use Rattle.std.specs.Prelude.{◌≡◌, ◌<◌, ◌++◌, ◌-◌, ◌^◌, OnOk, IfErr, slice_get};
ghost use Rattle.std.specs.List.{fold};
ghost use Rattle.markdown_options.specs.Messages.{IsOutOfMemory};
ghost use Rattle.state_edits_data.specs.Each.{around, around_if, column_over, data_part, enter_event, exit_event, is_bound, is_event};
ghost use Rattle.state_edits_data.specs.Each.{later, place_at, place_past, with_columns};

use engine_events::place::tab_size;
use engine_text::bytes::part;
use markdown_engine::Message;
use markdown_engine::event::{Event, Kind, Name};
use markdown_engine::place::{Point, START};
use std::alloc::Allocator;

/// So many more, up to the most that a number holds.
pub fn later(more: usize, index: usize) -> usize
    ensures { result ≡ later more index }
{
    index.saturating_add(more)
}

/// Where an event of a list is.
pub fn place_at(events: &[Event], index: usize) -> Point
    ensures { result ≡ place_at events.now index }
{
    match events.get(index) {
        None => START,
        Some(event) => event.point(),
    }
}

/// The beginning of something, at a place.
pub fn enter_event(name: Name, point: Point) -> Event
    ensures { result ≡ enter_event name point }
{
    Event::new(Kind::Enter, name, point, None)
}

/// The end of something, at a place.
pub fn exit_event(name: Name, point: Point) -> Event
    ensures { result ≡ exit_event name point }
{
    Event::new(Kind::Exit, name, point, None)
}

/// Whether an event enters, or exits, something of a name.
pub fn is_event(kind: Kind, name: Name, event: &Event) -> bool
    ensures { result ≡ is_event kind name event.now }
{
    event.kind == kind && event.name == name
}

/// Whether something of a name begins, or ends, at an index.
pub fn is_bound_at(kind: Kind, name: Name, events: &[Event], index: usize) -> bool
    ensures { result ≡ is_bound kind name (slice_get events.now index) }
{
    match events.get(index) {
        None => false,
        Some(event) => is_event(kind, name, event),
    }
}

/// The column after a byte.
fn column_over(column: usize, byte: u8) -> usize
    ensures { result ≡ column_over column byte }
{
    if byte == b'\t' {
        later(tab_size(column), column)
    } else {
        later(1, column)
    }
}

/// The column after bytes.
fn column_past(column: usize, part: &[u8]) -> usize
    ensures { result ≡ fold column_over column part.now }
{
    let mut column = column;
    for index in 0..part.len() {
        column = column_over(column, part[index]);
    }
    column
}

/// Bytes at an index that have columns: not those of a byte order mark at the text's start.
fn with_columns(index: usize, part: &[u8]) -> &[u8]
    ensures { result.now ≡ with_columns index part.now }
{
    match part {
        [0xEF, 0xBB, 0xBF, others @ ..] if index == 0 => others,
        _ => part,
    }
}

/// The place after some bytes of a line.
pub fn place_past(point: Point, part: &[u8]) -> Point
    ensures { result ≡ place_past point part.now }
{
    if part.is_empty() {
        return point;
    }
    Point {
        line: point.line,
        column: column_past(point.column, with_columns(point.index, part)),
        index: later(part.len(), point.index),
        vs: 0,
    }
}

/// Adds something between two places.
pub fn push_around<A: Allocator>(
    events: &mut Vec<Event, A>,
    name: Name,
    from: Point,
    to: Point,
) -> Result<(), Message>
    ensures events { OnOk result (events.new.items ≡ events.old.items ++ around name from to) }
    ensures memory { IfErr result IsOutOfMemory }
{
    events.extend_from_slice(&[
        Event::new(Kind::Enter, name, from, None),
        Event::new(Kind::Exit, name, to, None),
    ])?;
    Ok(())
}

/// Adds something between two places, if it is there.
pub fn push_if<A: Allocator>(
    there: bool,
    events: &mut Vec<Event, A>,
    name: Name,
    from: Point,
    to: Point,
) -> Result<(), Message>
    ensures events { OnOk result (events.new.items ≡ events.old.items ++ around_if there name from to) }
    ensures memory { IfErr result IsOutOfMemory }
{
    if there {
        push_around(events, name, from, to)?;
    }
    Ok(())
}

/// The bytes of data that begins at an index.
pub fn data_part<'a>(bytes: &'a [u8], events: &[Event], index: usize) -> &'a [u8]
    requires { index < 2 ^ 64 - 1 }
    ensures { result.now ≡ data_part bytes.now events.now index }
{
    let from = place_at(events, index).index;
    let to = place_at(events, index + 1).index;
    part(bytes, from, to.saturating_sub(from))
}
