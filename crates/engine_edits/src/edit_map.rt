//! Edits of a list of events, made as one replacement.
use crate::edit::Edit;
use crate::relink::{push_no_places, push_places_from, push_with_new_links};
use engine_events::Event;
use markdown_options::Message;
use std::alloc::{AllocError, Allocator};
use std::collections::BTreeMap;

/// Edits of a list of events, sorted by place.
#[derive(Drop)]
pub struct EditMap<A: Allocator> {
    edits: BTreeMap<usize, Edit<A>, A>,
}

impl<A: Allocator> EditMap<A> {
    ghost use Rattle.std.specs.Prelude.{◌≡◌, []};
    ghost use Rattle.engine_edits.specs.Edits.{edits_of};

    /// No edits.
    pub fn new(alloc: A) -> EditMap<A>
        ensures { edits_of result ≡ [] }
    {
        EditMap {
            edits: BTreeMap::new(alloc),
        }
    }
}

impl<A: Allocator + Clone> EditMap<A> {
    ghost use Rattle.std.specs.Prelude.{◌≡◌, OnOk, OnErr, IfErr, false, true};
    ghost use Rattle.markdown_options.specs.Messages.{IsOutOfMemory};
    ghost use Rattle.engine_edits.specs.Edits.{edits_of, with_edit, with_new, has_place};

    /// Adds an edit: at an index of the list `remove` events are removed and others are inserted.
    ///
    /// At one index removals add up, to at most `usize::MAX`, and inserted events come after
    /// earlier ones.
    pub fn add(&mut self, index: usize, remove: usize, add: Vec<Event, A>) -> Result<(), Message>
        ensures edits { OnOk result (edits_of self.new ≡ with_edit false index remove add.items (edits_of self.old)) }
        ensures err { OnErr result (edits_of self.new ≡ edits_of self.old) }
        ensures memory { IfErr result IsOutOfMemory }
    {
        self.merge(false, index, remove, add)?;
        Ok(())
    }

    /// Adds an edit as [`EditMap::add`] does, but the events come before those there.
    pub fn add_before(
        &mut self,
        index: usize,
        remove: usize,
        add: Vec<Event, A>,
    ) -> Result<(), Message>
        ensures edits { OnOk result (edits_of self.new ≡ with_edit true index remove add.items (edits_of self.old)) }
        ensures err { OnErr result (edits_of self.new ≡ edits_of self.old) }
        ensures memory { IfErr result IsOutOfMemory }
    {
        self.merge(true, index, remove, add)?;
        Ok(())
    }

    /// Adds an edit, whose events come before or after those there.
    fn merge(
        &mut self,
        before: bool,
        index: usize,
        remove: usize,
        add: Vec<Event, A>,
    ) -> Result<(), AllocError>
        ensures edits { OnOk result (edits_of self.new ≡ with_edit before index remove add.items (edits_of self.old)) }
        ensures err { OnErr result (edits_of self.new ≡ edits_of self.old) }
    {
        if let Some(edit) = self.edits.get_mut(&index) {
            edit.merge(before, remove, add)?;
            return Ok(());
        }
        self.insert(index, Edit { remove, add })?;
        Ok(())
    }

    /// Adds the first edit of an index.
    fn insert(&mut self, index: usize, edit: Edit<A>) -> Result<(), AllocError>
        requires { has_place index (edits_of self.old) ≡ false }
        ensures edits { OnOk result (edits_of self.new ≡ with_new index edit.remove edit.add.items (edits_of self.old)) }
        ensures err { OnErr result (edits_of self.new ≡ edits_of self.old) }
    {
        self.edits.insert(index, edit)?;
        Ok(())
    }
}

impl<A: Allocator> EditMap<A> {
    ghost use Rattle.std.specs.Prelude.{◌≡◌, ◌+◌, ◌<◌, ◌^◌, IfOk, map, length, true, false};
    ghost use Rattle.engine_edits.specs.Edits.{edits_of};
    ghost use Rattle.engine_edits.specs.Replacement.{IsOrdered, places, arrivals, replacement, with_new_links};

    /// Whether the ranges that go stand one after another, within a list of so many events.
    pub fn is_ordered(&self, count: usize) -> bool
        ensures yes { result ≡ true → IsOrdered 0 (edits_of self.now) count }
        ensures no { result ≡ false → ¬ (IsOrdered 0 (edits_of self.now) count) }
    {
        let mut from = 0;
        'edits: for (at, edit) in &self.edits {
            if *at < from {
                return false;
            }
            if !edit.ends_within(*at, count) {
                return false;
            }
            from = *at + edit.remove;
        }
        from <= count
    }

    /// Where the events of a list stand after the edits.
    fn places(&self, alloc: A, count: usize) -> Result<Vec<Option<usize>, A>, AllocError>
        requires ordered { IsOrdered 0 (edits_of self.now) count }
        requires fits { count + arrivals (edits_of self.now) < 2 ^ 64 }
        ensures { IfOk result (λ found. found.items ≡ places (edits_of self.now) count) }
    {
        let mut places = Vec::with_capacity(alloc, count)?;
        let mut from = 0;
        let mut to = 0;
        'edits: for (at, edit) in &self.edits {
            push_places_from(&mut places, to, *at - from)?;
            push_no_places(&mut places, edit.remove)?;
            to += *at - from + edit.add.len();
            from = *at + edit.remove;
        }
        push_places_from(&mut places, to, count - from)?;
        Ok(places)
    }

    /// How many events there are after the edits, or more; no memory has room for more than fit.
    fn room(&self, count: usize) -> Result<usize, AllocError>
        ensures { IfOk result (λ room. room ≡ count + arrivals (edits_of self.now)) }
    {
        let mut room = count;
        'edits: for (_, edit) in &self.edits {
            room = room.checked_add(edit.add.len()).ok_or(AllocError)?;
        }
        Ok(room)
    }

    /// The events with the edits made.
    fn replacement(
        &self,
        alloc: A,
        events: &[Event],
        places: &[Option<usize>],
        room: usize,
    ) -> Result<Vec<Event, A>, AllocError>
        requires { IsOrdered 0 (edits_of self.now) (length events.now) }
        ensures { IfOk result (λ all. all.items ≡ replacement 0 (edits_of self.now) (map (with_new_links places.now) events.now)) }
    {
        let mut all = Vec::with_capacity(alloc, room)?;
        let mut from = 0;
        'edits: for (at, edit) in &self.edits {
            push_with_new_links(&mut all, &events[from..*at], places)?;
            all.extend_from_slice(&edit.add)?;
            from = *at + edit.remove;
        }
        push_with_new_links(&mut all, &events[from..], places)?;
        Ok(all)
    }
}

impl<A: Allocator + Clone> EditMap<A> {
    ghost use Rattle.std.specs.Prelude.{◌≡◌, [], OnOk, OnErr, IfErr, IfOk, vec_len};
    ghost use Rattle.markdown_options.specs.Messages.{IsOutOfMemory};
    ghost use Rattle.engine_edits.specs.Edits.{edits_of};
    ghost use Rattle.engine_edits.specs.Replacement.{IsOrdered, events_after};

    /// Makes all edits at once, and clears the map.
    ///
    /// Indices are those of the list before. Links between kept events are updated. A link to a
    /// removed event becomes none. Links of inserted events are kept as they are. An error changes
    /// nothing.
    pub fn consume(&mut self, events: &mut Vec<Event, A>) -> Result<(), Message>
        requires { IsOrdered 0 (edits_of self.old) (vec_len events.old) }
        ensures edited { OnOk result (events.new.items ≡ events_after (edits_of self.old) events.old.items) }
        ensures spent { OnOk result (edits_of self.new ≡ []) }
        ensures err { OnErr result (events.new.items ≡ events.old.items) }
        ensures err_edits { OnErr result (edits_of self.new ≡ edits_of self.old) }
        ensures memory { IfErr result IsOutOfMemory }
    {
        let all = self.events_after(events)?;
        *events = all;
        self.edits.clear();
        Ok(())
    }

    /// The events with all edits made.
    fn events_after(&self, events: &Vec<Event, A>) -> Result<Vec<Event, A>, AllocError>
        requires { IsOrdered 0 (edits_of self.now) (vec_len events.now) }
        ensures { IfOk result (λ all. all.items ≡ events_after (edits_of self.now) events.now.items) }
    {
        let alloc = events.allocator();
        let room = self.room(events.len())?;
        let places = self.places(alloc.clone()?, events.len())?;
        self.replacement(alloc.clone()?, events, &places, room)
    }
}
