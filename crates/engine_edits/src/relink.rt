//! Where events are after edits, and links that follow them.
ghost use Rattle.std.specs.Prelude.{◌≡◌, ◌<◌, ◌+◌, ◌^◌, ◌++◌, None, OnOk, map, replicate};
ghost use Rattle.engine_edits.specs.Replacement.{rising, with_new_links, link_after, place_after};

use engine_events::{Event, Link};
use std::alloc::{AllocError, Allocator};

/// Adds the places of events that stay, from a place on.
pub fn push_places_from<A: Allocator>(
    places: &mut Vec<Option<usize>, A>,
    first: usize,
    count: usize,
) -> Result<(), AllocError>
    requires { first + count < 2 ^ 64 }
    ensures { OnOk result (places.new.items ≡ places.old.items ++ rising first count) }
{
    for offset in 0..count {
        places.push(Some(first + offset))?;
    }
    Ok(())
}

/// Adds that events are gone.
pub fn push_no_places<A: Allocator>(
    places: &mut Vec<Option<usize>, A>,
    count: usize,
) -> Result<(), AllocError>
    ensures { OnOk result (places.new.items ≡ places.old.items ++ replicate count None) }
{
    for _ in 0..count {
        places.push(None)?;
    }
    Ok(())
}

/// Adds events that stay, with their links to where the others stand now.
pub fn push_with_new_links<A: Allocator>(
    all: &mut Vec<Event, A>,
    events: &[Event],
    places: &[Option<usize>],
) -> Result<(), AllocError>
    ensures { OnOk result (all.new.items ≡ all.old.items ++ map (with_new_links places.now) events.now) }
{
    for event in events {
        all.push(with_new_links(event, places))?;
    }
    Ok(())
}

/// An event with its link to where the others stand now.
fn with_new_links(event: &Event, places: &[Option<usize>]) -> Event
    ensures { result ≡ with_new_links places.now event.now }
{
    let mut event = *event;
    if let Some(link) = event.link() {
        event.set_link(Some(link_after(link, places)));
    }
    event
}

/// A link to where the neighbours stand now.
fn link_after(link: Link, places: &[Option<usize>]) -> Link
    ensures { result ≡ link_after places.now link }
{
    Link {
        previous: place_after(link.previous, places),
        next: place_after(link.next, places),
        content: link.content,
    }
}

/// Where an event stands now; none if it is gone.
fn place_after(place: Option<usize>, places: &[Option<usize>]) -> Option<usize>
    ensures { result ≡ place_after places.now place }
{
    *places.get(place?)?
}
