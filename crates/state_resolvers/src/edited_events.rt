//! Edits that leave whole events are made, others are not.
ghost use Rattle.std.specs.Prelude.{◌≡◌, OnOk, IfErr, IfOk, length, true};
ghost use Rattle.markdown_options.specs.Messages.{IsOutOfMemory};
ghost use Rattle.engine_edits.specs.Edits.{edits_of};
ghost use Rattle.markdown_engine.specs.Machine.{Became, config, KeepsParseState};
ghost use Rattle.state_resolvers.specs.EditedEvents.{edited_events, is_ordered, with_edited_events};
ghost use Rattle.engine_edits.specs.Replacement.{IsOrdered};

use crate::whole::is_whole;
use engine_edits::EditMap;
use markdown_engine::Message;
use markdown_engine::event::Event;
use markdown_engine::place::Point;
use markdown_engine::tokenizer::Tokenizer;
use std::alloc::Allocator;

/// Whether the ranges that go stand one after another, within a list of so many events.
fn is_ordered<A: Allocator>(edits: &EditMap<A>, size: usize) -> bool
    ensures same { result ≡ is_ordered 0 (edits_of edits.now) size }
    ensures yes { result ≡ true → IsOrdered 0 (edits_of edits.now) size }
{
    edits.is_ordered(size)
}

/// The same events.
fn same<A: Allocator>(alloc: A, events: &[Event]) -> Result<Vec<Event, A>, Message>
    ensures events { IfOk result (λ all. all.items ≡ events.now) }
    ensures memory { IfErr result IsOutOfMemory }
{
    let mut all = Vec::new(alloc);
    all.extend_from_slice(events)?;
    Ok(all)
}

/// The events with edits made, which can be made, if these leave whole events.
#[tactic(auto, using(crate::proofs::Ordered::unwhole, crate::proofs::Ordered::made))]
fn whole_only<A: Allocator + Clone>(
    mut edits: EditMap<A>,
    to: Point,
    events: &Vec<Event, A>,
) -> Result<Vec<Event, A>, Message>
    requires ordered { IsOrdered 0 (edits_of edits) (length events.now.items) }
    requires is_ordered { is_ordered 0 (edits_of edits) (length events.now.items) ≡ true }
    ensures events { IfOk result (λ all. all.items ≡ edited_events (edits_of edits) to events.now.items) }
    ensures memory { IfErr result IsOutOfMemory }
{
    let mut all = same(events.allocator().clone()?, events)?;
    edits.consume(&mut all)?;
    if is_whole(events.allocator().clone()?, &all, to)? {
        return Ok(all);
    }
    same(events.allocator().clone()?, events)
}

/// The events with edits made, if these can be made and leave whole events.
#[tactic(auto, using(crate::proofs::Ordered::unmade))]
fn edited_events<A: Allocator + Clone>(
    edits: EditMap<A>,
    to: Point,
    events: &Vec<Event, A>,
) -> Result<Vec<Event, A>, Message>
    ensures events { IfOk result (λ all. all.items ≡ edited_events (edits_of edits) to events.now.items) }
    ensures memory { IfErr result IsOutOfMemory }
{
    if is_ordered(&edits, events.len()) {
        return whole_only(edits, to, events);
    }
    same(events.allocator().clone()?, events)
}

/// Makes edits of the events that were read, if these can be made and leave whole events.
pub fn make<M, T, A: Allocator + Clone>(
    tokenizer: &mut Tokenizer<'_, M, T, A>,
    edits: EditMap<A>,
) -> Result<(), Message>
    ensures became { OnOk result (Became (with_edited_events (edits_of edits) (config tokenizer.old)) tokenizer.old tokenizer.new) }
    ensures parse_state { KeepsParseState tokenizer.old tokenizer.new }
    ensures memory { IfErr result IsOutOfMemory }
{
    tokenizer.events = edited_events(edits, tokenizer.point, &tokenizer.events)?;
    Ok(())
}
