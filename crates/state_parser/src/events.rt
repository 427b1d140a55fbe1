//! Tests and places of events.
ghost use Rattle.std.specs.Prelude.{◌≡◌};
ghost use Rattle.state_parser.specs.Events.{end_of, is_before, is_bound, is_ending, is_ending_at, is_white_at, later, point_at};

use markdown_engine::event::{Event, Kind, Name};
use markdown_engine::place::{Point, START};

/// Whether something of a name begins, or ends.
pub(crate) fn is_bound(kind: Kind, name: Name, event: &Event) -> bool
    ensures { result ≡ is_bound kind name event.now }
{
    event.kind == kind && event.name == name
}

/// Whether an event is of a line ending.
pub(crate) fn is_ending(event: &Event) -> bool
    ensures { result ≡ is_ending event.now }
{
    event.name == Name::LineEnding || event.name == Name::BlankLineEnding
}

/// Whether the event at an index is of a line ending.
pub(crate) fn is_ending_at(events: &[Event], index: usize) -> bool
    ensures { result ≡ is_ending_at events.now index }
{
    match events.get(index) {
        Some(event) => is_ending(event),
        None => false,
    }
}

/// Whether white space begins, or ends, with the event at an index.
pub(crate) fn is_white_at(events: &[Event], kind: Kind, index: usize) -> bool
    ensures { result ≡ is_white_at events.now kind index }
{
    match events.get(index) {
        Some(event) => is_bound(kind, Name::SpaceOrTab, event),
        None => false,
    }
}

/// Where the event at an index is, or where a text starts.
pub(crate) fn point_at(events: &[Event], index: usize) -> Point
    ensures { result ≡ point_at events.now index }
{
    match events.get(index) {
        Some(event) => event.point(),
        None => START,
    }
}

/// Where the last event is, or where a text starts.
pub(crate) fn end_of(events: &[Event]) -> Point
    ensures { result ≡ end_of events.now }
{
    match events.last() {
        Some(event) => event.point(),
        None => START,
    }
}

/// Whether a place is before another.
pub(crate) fn is_before(first: Point, second: Point) -> bool
    ensures { result ≡ is_before first second }
{
    first.index < second.index || (first.index == second.index && first.vs < second.vs)
}

/// The later of two places.
pub(crate) fn later(first: Point, second: Point) -> Point
    ensures { result ≡ later first second }
{
    if is_before(second, first) {
        first
    } else {
        second
    }
}
