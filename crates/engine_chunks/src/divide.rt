//! The events that were read of a chain, put in place of its chunks.
ghost use Rattle.std.specs.Prelude.{◌≡◌, ◌++◌, OnOk, IfOk, IfErr};
ghost use Rattle.markdown_options.specs.Messages.{IsOutOfMemory};
ghost use Rattle.engine_edits.specs.Edits.{edits_of};
ghost use Rattle.engine_chunks.specs.Chunks.{chunks};
ghost use Rattle.engine_chunks.specs.Parts.{places_of, counts, with_division, with_division_at};

use crate::chunks::{chunks, part_size};
use engine_edits::EditMap;
use engine_edits::relink::{push_places_from, push_with_new_links};
use engine_events::Event;
use markdown_options::Message;
use std::alloc::{AllocError, Allocator};

/// Adds the edits of one chain to the map: each chunk is replaced by its part of the child events,
/// whose links are updated.
///
/// Returns how many events all edits up to here remove and insert, given the counts before the
/// chain. After an error the map may have any edits.
pub fn divide_events<A: Allocator + Clone>(
    alloc: A,
    map: &mut EditMap<A>,
    events: &[Event],
    link_index: usize,
    child_events: &[Event],
    acc_before: (usize, usize),
) -> Result<(usize, usize), Message>
    ensures edits { OnOk result (edits_of map.new ≡ with_division events.now link_index child_events.now acc_before (edits_of map.old)) }
    ensures counts { IfOk result (λ after. after ≡ counts events.now (chunks events.now link_index) child_events.now 0 acc_before.0 acc_before.1) }
    ensures memory { IfErr result IsOutOfMemory }
{
    let chain = chunks(alloc.clone()?, events, link_index)?;
    let mut places = Vec::new(alloc.clone()?);
    let after = push_places(&mut places, events, &chain, child_events, acc_before)?;
    add_parts(alloc, map, events, &chain, child_events, &places)?;
    Ok(after)
}

/// Adds where the child events stand afterwards, and answers how many events go and come by then.
fn push_places<A: Allocator>(
    places: &mut Vec<Option<usize>, A>,
    events: &[Event],
    chain: &[usize],
    children: &[Event],
    before: (usize, usize),
) -> Result<(usize, usize), AllocError>
    ensures places { OnOk result (places.new.items ≡ places.old.items ++ places_of events.now chain.now children.now 0 before.0 before.1) }
    ensures counts { IfOk result (λ after. after ≡ counts events.now chain.now children.now 0 before.0 before.1) }
{
    let mut removed = before.0;
    let mut added = before.1;
    let mut from = 0;
    for chunk in chain {
        let size = part_size(events, *chunk, children, from);
        let first = chunk
            .saturating_sub(removed)
            .checked_add(added)
            .ok_or(AllocError)?;
        first.checked_add(size).ok_or(AllocError)?;
        push_places_from(places, first, size)?;
        from += size;
        removed = removed.checked_add(2).ok_or(AllocError)?;
        added = added.checked_add(size).ok_or(AllocError)?;
    }
    Ok((removed, added))
}

/// Adds an edit for each chunk.
fn add_parts<A: Allocator + Clone>(
    alloc: A,
    map: &mut EditMap<A>,
    events: &[Event],
    chain: &[usize],
    children: &[Event],
    places: &[Option<usize>],
) -> Result<(), Message>
    ensures edits { OnOk result (edits_of map.new ≡ with_division_at events.now chain.now children.now places.now 0 (edits_of map.old)) }
    ensures memory { IfErr result IsOutOfMemory }
{
    let mut from = 0;
    for chunk in chain {
        let size = part_size(events, *chunk, children, from);
        let mut part = Vec::new(alloc.clone()?);
        push_with_new_links(&mut part, &children[from..from + size], places)?;
        map.add(*chunk, 2, part)?;
        from += size;
    }
    Ok(())
}
