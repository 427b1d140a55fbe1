//! The children of an event by their names.
//!
//! Events are given as those after the parent's enter, or as those of a child from its enter on.
//! In both cases more may follow.
ghost use Rattle.std.specs.Prelude.{◌≡◌, drop};
ghost use Rattle.compile_written.specs.Child.{from_child, has_name, text_to, text_first};

use engine_events::event::{Event, Kind, Name};
use event_grammar::Spot;
use event_grammar::spot::{bytes_between, spot_of};

/// The events from the first child of a name on, or none if there is no such child. The events are
/// those after the parent's enter.
pub fn child(events: &[Event], name: Name) -> &[Event]
    ensures { result.now ≡ from_child name 0 events.now }
{
    let mut depth: usize = 0;
    for (index, event) in events.iter().enumerate() {
        match event.kind {
            Kind::Enter => {
                if depth == 0 && event.name == name {
                    return &events[index..];
                }
                depth += 1;
            }
            Kind::Exit => {
                if depth == 0 {
                    return &[];
                }
                depth -= 1;
            }
        }
    }
    &[]
}

/// Whether an event of a name is among events, at any depth.
pub(crate) fn has_name(events: &[Event], name: Name) -> bool
    ensures { result ≡ has_name name events.now }
{
    for event in events {
        if event.name == name {
            return true;
        }
    }
    false
}

/// The events in the first one, and those after it.
pub fn inside(events: &[Event]) -> &[Event]
    ensures { result.now ≡ drop 1 events.now }
{
    match events {
        [] => &[],
        [_, rest @ ..] => rest,
    }
}

/// The events after the enter of the first child of a name.
pub fn inside_child(events: &[Event], name: Name) -> &[Event]
    ensures { result.now ≡ drop 1 (from_child name 0 events.now) }
{
    inside(child(events, name))
}

/// The bytes of the first event, or none if there are no events.
pub fn text_first<'a>(bytes: &'a [u8], events: &[Event]) -> &'a [u8]
    ensures { result.now ≡ text_first bytes.now events.now }
{
    match events {
        [] => &[],
        [enter, rest @ ..] => text_to(bytes, spot_of(enter), rest),
    }
}

/// The bytes from a place to the exit of the event that the events are in.
fn text_to<'a>(bytes: &'a [u8], from: Spot, events: &[Event]) -> &'a [u8]
    ensures { result.now ≡ text_to bytes.now from 0 events.now }
{
    let mut depth: usize = 0;
    for event in events {
        match event.kind {
            Kind::Enter => depth += 1,
            Kind::Exit => {
                if depth == 0 {
                    return bytes_between(bytes, from, spot_of(event));
                }
                depth -= 1;
            }
        }
    }
    &[]
}
