//! One edit: events that go, and events that come in their place.
ghost use Rattle.std.specs.Prelude.{◌≡◌, ◌+◌, ◌≤◌, ◌↔◌, IsTrue, OnOk, OnErr};
ghost use Rattle.engine_edits.specs.Counts.{together};
ghost use Rattle.engine_edits.specs.Edits.{both_additions};

use engine_events::Event;
use std::alloc::{AllocError, Allocator};

/// An edit at a place of a list.
#[derive(Drop)]
pub struct Edit<A: Allocator> {
    /// How many events are removed.
    pub remove: usize,
    /// The events that replace them.
    pub add: Vec<Event, A>,
}

impl<A: Allocator> Edit<A> {
    /// Adds another edit of the same place: its events come before or after those there.
    pub fn merge(
        &mut self,
        before: bool,
        remove: usize,
        add: Vec<Event, A>,
    ) -> Result<(), AllocError>
        ensures add { OnOk result (self.new.add.items ≡ both_additions before add.items self.old.add.items) }
        ensures remove { OnOk result (self.new.remove ≡ together self.old.remove remove) }
        ensures err_add { OnErr result (self.new.add.items ≡ self.old.add.items) }
        ensures err_remove { OnErr result (self.new.remove ≡ self.old.remove) }
    {
        if before {
            let mut all = add;
            all.extend_from_slice(&self.add)?;
            self.add = all;
        } else {
            self.add.extend_from_slice(&add)?;
        }
        self.remove = self.remove.saturating_add(remove);
        Ok(())
    }

    /// Whether what goes at a place ends within a list of so many events.
    pub fn ends_within(&self, at: usize, count: usize) -> bool
        ensures { IsTrue result ↔ (at + self.now.remove ≤ count) }
    {
        at <= count && self.remove <= count - at
    }
}
