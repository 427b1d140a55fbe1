//! Events that are siblings, and those in them.
ghost use Rattle.std.specs.Prelude.{◌≡◌, ◌≤◌, ◌<◌, None, drop, false, length, nat_lt, is_some, IfSome, MatchOption};
ghost use Rattle.event_grammar.specs.Points.{spot_of};
ghost use Rattle.event_grammar.specs.Trees.{Nodes, Nil, AreNodes, events_of};
ghost use Rattle.event_meaning.specs.Children as tree;
ghost use Rattle.compile_levels.specs.Children.{IsFirstOf, IsChildOf};
ghost use Rattle.compile_levels.specs.Siblings.{size_inside, inside, first_or, is_exit, IsFirst};

use engine_events::event::{Event, Kind, Name};
use event_grammar::spot::{Spot, spot_of};

/// An event with those in it.
#[derive(Clone, Copy)]
pub struct Node<'e> {
    pub name: Name,
    /// Where it is entered.
    pub start: Spot,
    /// Where it is exited.
    pub end: Spot,
    /// The events strictly inside.
    pub inside: &'e [Event],
}

/// A child among its siblings.
#[derive(Clone, Copy)]
pub struct Sibling<'e> {
    /// The index of its enter among the siblings' events.
    pub index: usize,
    pub node: Node<'e>,
    /// The events of the siblings after it.
    pub after: &'e [Event],
}

/// Returns the event that is entered here, by the events after its enter, and those after its exit.
pub fn node_after<'e>(enter: &Event, events: &'e [Event]) -> (Node<'e>, &'e [Event])
    ensures name { result.0.name ≡ enter.now.name }
    ensures start { result.0.start ≡ spot_of enter.now }
    ensures end { result.0.end ≡ spot_of (first_or enter.now (drop (size_inside 0 events.now) events.now)) }
    ensures inside { result.0.inside.now ≡ inside events.now }
    ensures after { result.1.now ≡ drop 1 (drop (size_inside 0 events.now) events.now) }
    ensures smaller { length result.0.inside.now ≤ length events.now }
    ensures shorter { length result.1.now ≤ length events.now }
{
    let (inside, rest) = events.split_at(size_inside(events));
    let (end, after) = exit_of(enter, rest);
    let node = Node {
        name: enter.name,
        start: spot_of(enter),
        end,
        inside,
    };
    (node, after)
}

/// The place of the first event, or of the other one if there is none, and the events after it.
fn exit_of<'e>(enter: &Event, events: &'e [Event]) -> (Spot, &'e [Event])
    ensures place { result.0 ≡ spot_of (first_or enter.now events.now) }
    ensures after { result.1.now ≡ drop 1 events.now }
    ensures shorter { length result.1.now ≤ length events.now }
{
    match events {
        [] => (spot_of(enter), &[]),
        [exit, after @ ..] => (spot_of(exit), after),
    }
}

/// How many events come before the exit of the event that these are in. They are passed two by two,
/// since that exit has an even number of them before it.
fn size_inside(events: &[Event]) -> usize
    ensures size { result ≡ size_inside 0 events.now }
    ensures within { result ≤ length events.now }
{
    let mut pairs: usize = 0;
    let mut index: usize = 0;
    while index + 1 < events.len() {
        match events[index].kind {
            Kind::Enter => {
                if !is_exit(events[index + 1].kind) {
                    pairs += 1;
                }
            }
            Kind::Exit => {
                if pairs == 0 {
                    return index;
                }
                if is_exit(events[index + 1].kind) {
                    pairs -= 1;
                }
            }
        }
        index += 2;
    }
    match &events[index..] {
        [] => events.len(),
        [last, ..] => {
            if pairs == 0 && is_exit(last.kind) {
                index
            } else {
                events.len()
            }
        }
    }
}

/// Whether an event is the exit of another.
fn is_exit(kind: Kind) -> bool
    ensures { result ≡ is_exit kind }
{
    matches!(kind, Kind::Exit)
}

/// Returns the first of these siblings, and the events of those after it.
pub fn first_node(events: &[Event]) -> Option<(Node<'_>, &[Event])>
    ensures some { is_some result ≡ nat_lt 0 (length events.now) }
    ensures first { IfSome result (λ found. IsFirst events.now found.0 found.1.now) }
    ensures nodes { (ns : Nodes) → AreNodes ns → events.now ≡ events_of ns → MatchOption result (ns ≡ Nil) (λ found. IsFirstOf ns found.0 found.1.now) }
    ensures smaller { IfSome result (λ found. length found.0.inside.now < length events.now) }
    ensures shorter { IfSome result (λ found. length found.1.now < length events.now) }
{
    match events {
        [] => None,
        [enter, others @ ..] => Some(node_after(enter, others)),
    }
}

/// Returns the first of these siblings that has a name.
pub fn child(events: &[Event], name: Name) -> Option<Sibling<'_>>
    ensures nodes { (ns : Nodes) → AreNodes ns → events.now ≡ events_of ns →
        MatchOption result (tree.child name ns ≡ None) (λ found. IsChildOf name events.now ns found) }
    ensures within { IfSome result (λ found. found.index ≤ length events.now) }
    ensures shorter { IfSome result (λ found. length found.after.now < length events.now) }
{
    let mut rest = events;
    while let Some((node, after)) = first_node(rest) {
        if node.name == name {
            return Some(Sibling {
                index: events.len() - rest.len(),
                node,
                after,
            });
        }
        rest = after;
    }
    None
}

/// Returns the events in the first of these siblings that has a name, or none.
pub fn kids_in(events: &[Event], name: Name) -> &[Event]
    ensures { (ns : Nodes) → AreNodes ns → events.now ≡ events_of ns → result.now ≡ events_of (tree.kids_in name ns) }
{
    match child(events, name) {
        None => &[],
        Some(found) => found.node.inside,
    }
}

/// Whether the last of these events has a name.
pub fn ends_in(events: &[Event], name: Name) -> bool
    ensures { (ns : Nodes) → AreNodes ns → events.now ≡ events_of ns → result ≡ tree.ends_in name false ns }
{
    match events.last() {
        None => false,
        Some(event) => event.name == name,
    }
}
