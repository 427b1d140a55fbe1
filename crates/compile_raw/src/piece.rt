//! The bytes of events.
ghost use Rattle.std.specs.Prelude.{◌≡◌};
ghost use Rattle.event_grammar.specs.Trees as tree;
ghost use Rattle.event_grammar.specs.Trees.{Nodes, AreNodes, events_of};
ghost use Rattle.compile_levels.specs.Siblings.{Reads};
ghost use Rattle.event_meaning.specs.Children as meaning;
ghost use Rattle.compile_written.specs.Strings.{valid};

use compile_levels::node::{Node, child};
use engine_events::event::{Event, Name};
use event_grammar::spot::bytes_between;

/// Returns the bytes of an event: a tab that its end cuts is among them, one that its start cuts
/// isn't.
pub fn piece_of<'t>(bytes: &'t [u8], node: &Node<'_>) -> &'t [u8]
    ensures { (n : tree.Node) → Reads node.now n → result.now ≡ meaning.text_of bytes.now n }
{
    bytes_between(bytes, node.start, node.end)
}

/// Returns the bytes of the first of these siblings that has a name, or none.
pub fn piece_in<'t>(bytes: &'t [u8], events: &[Event], name: Name) -> &'t [u8]
    ensures { (ns : Nodes) → AreNodes ns → events.now ≡ events_of ns → result.now ≡ meaning.text_in bytes.now name ns }
{
    match child(events, name) {
        None => &[],
        Some(found) => piece_of(bytes, &found.node),
    }
}

/// Returns bytes as a text, or no text if they aren't UTF-8.
pub fn text_of(bytes: &[u8]) -> &str
    ensures { result.now ≡ valid bytes.now }
{
    match std::str::from_utf8(bytes) {
        Ok(text) => text,
        Err(_) => "",
    }
}
