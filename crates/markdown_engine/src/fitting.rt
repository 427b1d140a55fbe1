//! Tests whether the chains of a list of events can be read.
ghost use Rattle.std.specs.Prelude.{◌≤◌, ◌+◌, ◌++◌, ◌↔◌, IfOk, IsTrue, List, MatchOption, ℕ, length};
ghost use Rattle.std.specs.Option.{option_copied};
ghost use Rattle.markdown_engine.specs.Chains.{AreApart, ArePlaces, IsPlace, chains, chunks_of};

use crate::chains::chain_content;
use engine_chunks::chunks::chunks;
use engine_events::{Content, Event, Point};
use std::alloc::{AllocError, Allocator};

/// Whether each event is at a place of a text.
pub fn are_places(bytes: &[u8], events: &[Event]) -> bool
    ensures { IsTrue result ↔ ArePlaces bytes.now events.now }
{
    for event in events {
        if !is_place(bytes, event.point()) {
            return false;
        }
    }
    true
}

/// Whether a point is a place of a text.
fn is_place(bytes: &[u8], point: Point) -> bool
    ensures { IsTrue result ↔ IsPlace bytes.now point }
{
    point.index < bytes.len() || (point.index == bytes.len() && point.vs == 0)
}

/// Returns whether the chunks of the requested chains follow one another, each right before its
/// exit.
pub fn are_apart<A: Allocator + Clone>(
    alloc: &A,
    events: &[Event],
    filter: Option<&Content>,
) -> Result<bool, AllocError>
    ensures { IfOk result (λ apart. IsTrue apart ↔ AreApart 0 (chunks_of events.now (chains (option_copied filter.entry) events.now)) (length events.now)) }
{
    let wanted = filter.copied();
    let mut from = 0;
    for index in 0..events.len() {
        if chain_content(&events[index], wanted).is_some() {
            let chain = chunks(alloc.clone()?, events, index)?;
            match end_apart(from, &chain, events.len()) {
                None => return Ok(false),
                Some(end) => from = end,
            }
        }
    }
    Ok(true)
}

/// Where the last of some chunks ends, if they stand one after another from an index on.
fn end_apart(from: usize, chain: &[usize], count: usize) -> Option<usize>
    requires { from ≤ count }
    ensures { (more : List ℕ) → MatchOption result
        (¬ (AreApart from (chain.now ++ more) count))
        (λ end. (end ≤ count) × (AreApart from (chain.now ++ more) count ↔ AreApart end more count)) }
{
    let mut end = from;
    for chunk in chain {
        if !follows(end, *chunk, count) {
            return None;
        }
        end = *chunk + 2;
    }
    Some(end)
}

/// Whether a chunk stands at an index or after it, with its exit, in a list of so many events.
fn follows(from: usize, chunk: usize, count: usize) -> bool
    ensures { IsTrue result ↔ ((from ≤ chunk) × (chunk + 2 ≤ count)) }
{
    from <= chunk && chunk < count && count - chunk >= 2
}
