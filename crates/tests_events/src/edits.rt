//! Edits that make other lists of a list.
use crate::lists::point_of;
use crate::names::Names;
use engine_events::event::{Event, Name};
use engine_events::place::Point;
use std::alloc::{AllocError, Global};

/// An edit of a list, by the indices of its events.
#[derive(Clone, Copy)]
pub enum Edit {
    /// `span I J`: without the events from one to another.
    Span(usize, usize),
    /// `pair I J`: without two events.
    Pair(usize, usize),
    /// `swap I`: two neighbours change places.
    Swap(usize),
    /// `name I J NAME`: two events get another name.
    Rename(usize, usize, Name),
    /// `move I INDEX.VS`: an event gets another point.
    Move(usize, Point),
}

impl Edit {
    /// The edit that a line says.
    pub fn read(names: &Names, line: &str) -> Option<Edit> {
        let (kind, rest) = line.split_once(' ')?;
        let mut words = rest.split(' ');
        let first = words.next()?.parse::<usize>().ok()?;
        if kind == "swap" {
            return Some(Edit::Swap(first));
        }
        let second = words.next()?;
        if kind == "move" {
            return Some(Edit::Move(first, point_of(second)?));
        }
        let last = second.parse::<usize>().ok()?;
        match kind {
            "span" => Some(Edit::Span(first, last)),
            "pair" => Some(Edit::Pair(first, last)),
            "name" => Some(Edit::Rename(first, last, names.find(words.next()?)?)),
            _ => None,
        }
    }

    /// The list after the edit.
    pub fn apply(&self, alloc: Global, events: &[Event]) -> Result<Vec<Event>, AllocError> {
        let mut edited = Vec::new(alloc);
        for (index, event) in events.iter().enumerate() {
            if let Some(event) = self.event_at(events, index, event) {
                edited.push(event)?;
            }
        }
        Ok(edited)
    }

    /// What stands in place of an event.
    fn event_at(&self, events: &[Event], index: usize, event: &Event) -> Option<Event> {
        match self {
            Edit::Span(first, last) if *first <= index && index <= *last => None,
            Edit::Pair(first, last) if *first == index || *last == index => None,
            Edit::Swap(first) if *first == index => events.get(index.saturating_add(1)).copied(),
            Edit::Swap(first) if first.saturating_add(1) == index => events.get(*first).copied(),
            Edit::Rename(first, last, name) if *first == index || *last == index => {
                Some(Event::new(event.kind, *name, event.point(), None))
            }
            Edit::Move(own, point) if *own == index => {
                Some(Event::new(event.kind, event.name, *point, None))
            }
            _ => Some(*event),
        }
    }
}
