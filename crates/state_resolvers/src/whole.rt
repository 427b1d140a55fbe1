//! Whether events are balanced and in order of place.
ghost use Rattle.std.specs.Prelude.{◌≡◌, [], IfOk, OnOk};
ghost use Rattle.markdown_engine.specs.Order.{text_start};
ghost use Rattle.state_resolvers.specs.Whole.{is_in_order, is_nested, is_whole, may_stand, names_after, reaches};

use markdown_engine::event::{Event, Kind, Name};
use markdown_engine::place::{Point, START};
use std::alloc::{AllocError, Allocator};

/// Whether an event may stand where these names are open.
fn may_stand<A: Allocator>(names: &Vec<Name, A>, event: &Event) -> bool
    ensures { result ≡ may_stand event.now.kind event.now.name names.now.items }
{
    match event.kind {
        Kind::Enter => true,
        Kind::Exit => match names.last() {
            None => false,
            Some(other) => *other == event.name,
        },
    }
}

/// Goes over an event: its name is open, or the last that was is no more.
fn open<A: Allocator>(names: &mut Vec<Name, A>, event: &Event) -> Result<(), AllocError>
    ensures { OnOk result (names.new.items ≡ names_after event.now.kind event.now.name names.old.items) }
{
    match event.kind {
        Kind::Enter => names.push(event.name)?,
        Kind::Exit => names.truncate(names.len().saturating_sub(1)),
    }
    Ok(())
}

/// Whether events are nested, and none is open at the end.
fn is_nested<A: Allocator>(alloc: A, events: &[Event]) -> Result<bool, AllocError>
    ensures { IfOk result (λ nested. nested ≡ is_nested [] events.now) }
{
    let mut names = Vec::new(alloc);
    for index in 0..events.len() {
        let event = &events[index];
        if !may_stand(&names, event) {
            return Ok(false);
        }
        open(&mut names, event)?;
    }
    Ok(names.is_empty())
}

/// Whether a point is another or after it.
fn reaches(from: Point, to: Point) -> bool
    ensures { result ≡ reaches from to }
{
    from.index <= to.index && (from.index != to.index || from.vs <= to.vs)
}

/// Whether events are in order of place, up to a place.
fn is_in_order(events: &[Event], to: Point) -> bool
    ensures { result ≡ is_in_order text_start events.now to }
{
    let mut from = START;
    for index in 0..events.len() {
        let point = events[index].point();
        if !reaches(from, point) {
            return false;
        }
        from = point;
    }
    reaches(from, to)
}

/// Whether events are balanced and in order of place, up to a place.
#[tactic(auto, unfolding(crate::specs::Whole::is_whole))]
pub fn is_whole<A: Allocator>(alloc: A, events: &[Event], to: Point) -> Result<bool, AllocError>
    ensures { IfOk result (λ whole. whole ≡ is_whole events.now to) }
{
    if !is_nested(alloc, events)? {
        return Ok(false);
    }
    Ok(is_in_order(events, to))
}
