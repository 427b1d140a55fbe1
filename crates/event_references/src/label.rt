//! The text of an event: a label.
ghost use Rattle.std.specs.Prelude.{◌≡◌, ◌<◌, ◌≤◌, ◌+◌, ◌^◌, ◌++◌, ℕ, List, IfSome, OnOk};
ghost use Rattle.event_references.specs.Texts.{text_after, text_next};
ghost use Rattle.event_references.specs.Views.{walked, text_at};

use engine_events::event::{Event, Kind, Name};
use event_grammar::Spot;
use event_grammar::spot::{bytes_between, spot_of};
use std::alloc::{AllocError, Allocator};

/// How many events are open inside an event: quote prefixes with the events in them, and all
/// others.
#[derive(Clone, Copy)]
pub struct Walk {
    quoted: usize,
    depth: usize,
}

impl Walk {
    /// The counts after an event of this name, or none if it exits the event itself.
    fn past(self, kind: Kind, name: Name) -> Option<Walk>
        requires quoted { self.quoted + 1 < 2 ^ 64 }
        requires depth { self.depth + 1 < 2 ^ 64 }
        ensures next { (others : ℕ → ℕ → List ℕ) → text_next kind name self.quoted self.depth others ≡ walked result others }
        ensures quoted { IfSome result (λ next. next.quoted ≤ self.quoted + 1) }
        ensures depth { IfSome result (λ next. next.depth ≤ self.depth + 1) }
    {
        match kind {
            Kind::Enter => {
                if self.quoted == 0 && name != Name::BlockQuotePrefix {
                    Some(Walk {
                        quoted: self.quoted,
                        depth: self.depth + 1,
                    })
                } else {
                    Some(Walk {
                        quoted: self.quoted + 1,
                        depth: self.depth,
                    })
                }
            }
            Kind::Exit => {
                if self.quoted != 0 {
                    Some(Walk {
                        quoted: self.quoted - 1,
                        depth: self.depth,
                    })
                } else if self.depth == 0 {
                    None
                } else {
                    Some(Walk {
                        quoted: self.quoted,
                        depth: self.depth - 1,
                    })
                }
            }
        }
    }
}

/// Appends the text of the event that begins at a place: its bytes, without those of quote prefixes
/// in it. The events are those after its enter.
pub fn push_text<A: Allocator>(
    text: &mut Vec<u8, A>,
    bytes: &[u8],
    start: Spot,
    events: &[Event],
) -> Result<(), AllocError>
    ensures { OnOk result (text.new.items ≡ text.old.items ++ text_after bytes.now 0 0 start events.now) }
{
    let mut walk = Walk {
        quoted: 0,
        depth: 0,
    };
    let mut from = start;
    for event in events {
        let to = spot_of(event);
        if walk.quoted == 0 {
            text.extend_from_slice(bytes_between(bytes, from, to))?;
        }
        let Some(next) = walk.past(event.kind, event.name) else {
            return Ok(());
        };
        walk = next;
        from = to;
    }
    Ok(())
}

/// Appends the text of the event at this index of the list, or nothing past the list.
pub fn push_text_at<A: Allocator>(
    text: &mut Vec<u8, A>,
    bytes: &[u8],
    events: &[Event],
    index: usize,
) -> Result<(), AllocError>
    ensures { OnOk result (text.new.items ≡ text.old.items ++ text_at bytes.now events.now index) }
{
    if index >= events.len() {
        return Ok(());
    }
    push_text(text, bytes, spot_of(&events[index]), &events[index + 1..])
}
