//! Whether lists and items are loose (CommonMark 5.3).
ghost use Rattle.std.specs.Prelude.{◌≡◌, ◌+◌, drop, None};
ghost use Rattle.event_grammar.specs.Trees.{Node};
ghost use Rattle.event_grammar.specs.declared.slot.Child.TheVariants.{Only, Block};
ghost use Rattle.engine_events.specs.declared.event.Name.TheVariants as names;
ghost use Rattle.event_check.specs.Loose.{ends_line, lines_in, is_return, is_apart, is_far, apart_after, item_after, is_loose_item, is_loose_list, IsAt, kids_of};

use crate::checked::Checked;
use engine_events::event::{Event, Kind, Name};
use event_grammar::Child;
use event_grammar::slots::has;
use event_grammar::spot::{Spot, bytes_between, spot_of};

/// Returns whether a list is loose (CommonMark 5.3): some two neighbouring items are more than a
/// line apart or, with `include_items`, some item is loose. The index is that of the list's enter.
pub fn list_loose<T>(checked: &Checked<'_, T>, index: usize, include_items: bool) -> bool
    ensures { (node : Node) → IsAt checked.now.events.now index node →
        result ≡ is_loose_list checked.now.bytes.now include_items (kids_of node) }
{
    let bytes = checked.bytes();
    let events = events_after(checked.events(), index);
    are_apart(bytes, events, Child::Only(Name::ListItem))
        || include_items && has_loose_item(bytes, events)
}

/// Returns whether an item is loose: some two neighbouring blocks of it are more than a line apart.
/// The index is that of the item's enter.
pub fn list_item_loose<T>(checked: &Checked<'_, T>, index: usize) -> bool
    ensures { (node : Node) → IsAt checked.now.events.now index node → result ≡ is_loose_item checked.now.bytes.now (kids_of node) }
{
    are_apart(
        checked.bytes(),
        events_after(checked.events(), index),
        Child::Block,
    )
}

/// The events after the one at an index.
pub(crate) fn events_after(events: &[Event], index: usize) -> &[Event]
    ensures { result.now ≡ drop (index + 1) events.now }
{
    if index < events.len() {
        &events[index + 1..]
    } else {
        &[]
    }
}

/// Whether some two neighbouring children of a kind are more than a line apart. The events are
/// those after the parent's enter.
fn are_apart(bytes: &[u8], events: &[Event], child: Child) -> bool
    ensures { result ≡ apart_after bytes.now child 0 None events.now }
{
    let mut depth: usize = 0;
    let mut last = None;
    for event in events {
        match event.kind {
            Kind::Enter => {
                if depth == 0 && has(child, event.name) && is_far(bytes, last, spot_of(event)) {
                    return true;
                }
                depth += 1;
            }
            Kind::Exit => {
                if depth == 0 {
                    return false;
                }
                depth -= 1;
                if depth == 0 && has(child, event.name) {
                    last = Some(spot_of(event));
                }
            }
        }
    }
    false
}

/// Whether some item is loose, among the events after a list's enter.
fn has_loose_item(bytes: &[u8], events: &[Event]) -> bool
    ensures { result ≡ item_after bytes.now 0 events.now }
{
    let mut depth: usize = 0;
    for (index, event) in events.iter().enumerate() {
        match event.kind {
            Kind::Enter => {
                if depth == 0
                    && event.name == Name::ListItem
                    && are_apart(bytes, &events[index + 1..], Child::Block)
                {
                    return true;
                }
                depth += 1;
            }
            Kind::Exit => {
                if depth == 0 {
                    return false;
                }
                depth -= 1;
            }
        }
    }
    false
}

/// Whether a place is more than a line after the last one. Without a last one it isn't.
fn is_far(bytes: &[u8], last: Option<Spot>, at: Spot) -> bool
    ensures { result ≡ is_far bytes.now last at }
{
    match last {
        None => false,
        Some(last) => is_apart(bytes, last.index, at.index),
    }
}

/// Returns whether more than one line ends between two places (CommonMark 5.3).
pub fn is_apart(bytes: &[u8], from: usize, to: usize) -> bool
    ensures { result ≡ is_apart bytes.now from to }
{
    let start = Spot { index: from, vs: 0 };
    let end = Spot { index: to, vs: 0 };
    1 < lines_in(bytes_between(bytes, start, end), is_return(bytes, from))
}

/// Whether the byte before an index is a CR.
fn is_return(bytes: &[u8], index: usize) -> bool
    ensures { result ≡ is_return bytes.now index }
{
    0 < index && index - 1 < bytes.len() && bytes[index - 1] == b'\r'
}

/// How many lines end in these bytes. `after_return` says whether a CR is before them.
fn lines_in(bytes: &[u8], after_return: bool) -> usize
    ensures { result ≡ lines_in after_return 0 bytes.now }
{
    let mut count: usize = 0;
    let mut returned = after_return;
    for byte in bytes {
        if ends_line(returned, *byte) {
            count += 1;
        }
        returned = *byte == b'\r';
    }
    count
}

/// Whether a line ends at a byte. An LF after a CR ends none, since the CR did.
fn ends_line(returned: bool, byte: u8) -> bool
    ensures { result ≡ ends_line returned byte }
{
    byte == b'\r' || byte == b'\n' && !returned
}
