//! Chunks joined to chains.
ghost use Rattle.std.specs.Prelude.{◌≡◌, ◌≤◌, ◌<◌, ◌-◌, length};
ghost use Rattle.engine_events.specs.Events.{link_of, previous_of};
ghost use Rattle.engine_chunks.specs.Joins.{link_all, link_to, update_at, with_next, with_previous};

use engine_events::{Event, Link};

/// Links the chunk at an index to the one two events before. No event is between them.
pub fn link(events: &mut [Event], index: usize)
    requires after { 2 ≤ index }
    requires within { index < length events.old }
    ensures { events.new ≡ link_to (index - 2) index events.old }
{
    link_to(events, index - 2, index);
}

/// Joins two chunks. An event that holds no link stays as it is.
pub fn link_to(events: &mut [Event], previous: usize, next: usize)
    requires previous { previous < length events.old }
    requires next { next < length events.old }
    ensures { events.new ≡ link_to previous next events.old }
{
    join_next(events, previous, next);
    join_previous(events, next, previous);
}

/// Joins the chunks of all chains: each that others name as the one before them gets the last of
/// these as the next.
///
/// States add events and change none, so a chunk that they add names only the one before it, and an
/// attempt that fails leaves no link to what is gone. A resolver joins the chunks at the end.
pub fn link_all(events: &mut [Event])
    ensures { events.new ≡ link_all events.old }
{
    for index in 0..events.len() {
        if let Some(previous) = previous_chunk(&events[index]) {
            if previous < events.len() {
                join_next(events, previous, index);
            }
        }
    }
}

/// The chunk that an event names as the one before it.
fn previous_chunk(event: &Event) -> Option<usize>
    ensures { result ≡ previous_of (link_of event.now) }
{
    event.link()?.previous
}

/// Gives the chunk at an index another one after it.
fn join_next(events: &mut [Event], index: usize, next: usize)
    requires { index < length events.old }
    ensures { events.new ≡ update_at (with_next next) index events.old }
{
    let event = events[index];
    events[index] = with_next(&event, next);
}

/// Gives the chunk at an index another one before it.
fn join_previous(events: &mut [Event], index: usize, previous: usize)
    requires { index < length events.old }
    ensures { events.new ≡ update_at (with_previous previous) index events.old }
{
    let event = events[index];
    events[index] = with_previous(&event, previous);
}

/// A chunk with another one after it.
fn with_next(event: &Event, next: usize) -> Event
    ensures { result ≡ with_next next event.now }
{
    let mut event = *event;
    if let Some(link) = event.link() {
        event.set_link(Some(Link {
            previous: link.previous,
            next: Some(next),
            content: link.content,
        }));
    }
    event
}

/// A chunk with another one before it.
fn with_previous(event: &Event, previous: usize) -> Event
    ensures { result ≡ with_previous previous event.now }
{
    let mut event = *event;
    if let Some(link) = event.link() {
        event.set_link(Some(Link {
            previous: Some(previous),
            next: link.next,
            content: link.content,
        }));
    }
    event
}
