//! An edit by the events that it adds.
ghost use Rattle.std.specs.Prelude.{◌≡◌, OnOk, IfOk, IfErr, false};
ghost use Rattle.markdown_options.specs.Messages.{IsOutOfMemory};
ghost use Rattle.engine_edits.specs.Edits.{edits_of, with_edit};

use engine_edits::EditMap;
use markdown_engine::Message;
use markdown_engine::event::Event;
use std::alloc::Allocator;

/// A list of these events.
fn event_list<A: Allocator>(alloc: A, events: &[Event]) -> Result<Vec<Event, A>, Message>
    ensures events { IfOk result (λ all. all.items ≡ events.now) }
    ensures memory { IfErr result IsOutOfMemory }
{
    let mut all = Vec::new(alloc);
    all.extend_from_slice(events)?;
    Ok(all)
}

/// Adds the edit that puts events at an index, in place of so many.
pub(crate) fn put<A: Allocator + Clone>(
    edits: &mut EditMap<A>,
    alloc: &A,
    index: usize,
    remove: usize,
    events: &[Event],
) -> Result<(), Message>
    ensures edits { OnOk result (edits_of edits.new ≡ with_edit false index remove events.now (edits_of edits.old)) }
    ensures memory { IfErr result IsOutOfMemory }
{
    let all = event_list(alloc.clone()?, events)?;
    edits.add(index, remove, all)
}
