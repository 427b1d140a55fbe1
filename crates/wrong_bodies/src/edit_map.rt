//! Edits of a list of events.
ghost use Rattle.std.specs.Prelude.{◌≡◌, [], OnOk, IfErr, false, vec_len};
ghost use Rattle.engine_edits.specs.Edits.{with_edit};
ghost use Rattle.engine_edits.specs.Replacement.{IsOrdered, events_after};
ghost use Rattle.markdown_options.specs.Messages.{IsOutOfMemory};

use engine_edits::EditMap;
use engine_events::Event;
use markdown_options::Message;
use std::alloc::Allocator;

/// Inserts events at two places of a list at once, by `EditMap` of `engine_edits`: both indices are
/// those of the list before.
pub fn insert_both<A: Allocator + Clone>(
    alloc: A,
    events: &mut Vec<Event, A>,
    first: (usize, Vec<Event, A>),
    second: (usize, Vec<Event, A>),
) -> Result<(), Message>
    requires { IsOrdered 0 (with_edit false second.0 0 second.1.items (with_edit false first.0 0 first.1.items [])) (vec_len events.old) }
    ensures edited { OnOk result (events.new.items
        ≡ events_after (with_edit false second.0 0 second.1.items (with_edit false first.0 0 first.1.items [])) events.old.items) }
    ensures memory { IfErr result IsOutOfMemory }
{
    let mut edits = EditMap::new(alloc);
    edits.add(first.0, 0, first.1)?;
    edits.add(second.0, 0, second.1)?;
    edits.consume(events)
}
