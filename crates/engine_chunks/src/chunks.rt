//! The chunks of a chain, and which child events belong to each.
//!
//! A chunk is an event that is entered, with a link to the chunks before and after it, and left
//! right after.
ghost use Rattle.std.specs.Prelude.{◌≡◌, ◌≤◌, ◌+◌, IfOk, length, drop, slice_get};
ghost use Rattle.std.specs.List.{position_or_len};
ghost use Rattle.engine_chunks.specs.Chunks.{chunks, next_chunk, is_past, is_beyond, part_size};

use engine_events::{Event, Point};
use std::alloc::{AllocError, Allocator};

/// The indices of a chain's chunks, from one on.
pub fn chunks<A: Allocator>(
    alloc: A,
    events: &[Event],
    first: usize,
) -> Result<Vec<usize, A>, AllocError>
    ensures { IfOk result (λ found. found.items ≡ chunks events.now first) }
{
    let mut found = Vec::new(alloc);
    let mut chunk = Some(first);
    let mut left = events.len();
    while left > 0 {
        let Some(at) = chunk else {
            return Ok(found);
        };
        found.push(at)?;
        chunk = next_chunk(events, at);
        left -= 1;
    }
    Ok(found)
}

/// The index of the chunk after one.
fn next_chunk(events: &[Event], at: usize) -> Option<usize>
    ensures { result ≡ next_chunk (slice_get events.now at) }
{
    events.get(at)?.link()?.next
}

/// How many of the child events from an index on belong to a chunk: those up to and at its end.
pub fn part_size(events: &[Event], chunk: usize, children: &[Event], from: usize) -> usize
    requires { from ≤ length children.now }
    ensures size { result ≡ part_size events.now chunk (drop from children.now) }
    ensures within { from + result ≤ length children.now }
{
    if chunk >= events.len() {
        return 0;
    }
    match events.get(chunk + 1) {
        None => 0,
        Some(exit) => count_to(exit.point(), children, from),
    }
}

/// How many of the events from an index on stand up to and at a place.
fn count_to(end: Point, events: &[Event], from: usize) -> usize
    requires { from ≤ length events.now }
    ensures count { result ≡ position_or_len (is_beyond end) (drop from events.now) }
    ensures within { from + result ≤ length events.now }
{
    for at in from..events.len() {
        if is_past(end, events[at].point()) {
            return at - from;
        }
    }
    events.len() - from
}

/// Whether a place is past another.
fn is_past(end: Point, point: Point) -> bool
    ensures { result ≡ is_past end point }
{
    point.index > end.index || (point.index == end.index && point.vs > end.vs)
}
