//! A list of events that grows, with what is open in it.
//!
//! Whatever is added, events stay nested and in order: an event is never before the last one, what
//! is open in a container ends with it, and an end of something that isn't the innermost is left out.
ghost use Rattle.std.specs.Prelude.{◌≡◌, IfOk};
ghost use Rattle.std.specs.List.{prefix_len};
ghost use Rattle.state_parser.specs.Merged.{merged_seen, nothing, stays_after, white_start};

use crate::events::{end_of, is_ending, is_white_at, later, point_at};
use markdown_engine::event::{Event, Kind, Name};
use markdown_engine::place::Point;
use std::alloc::{AllocError, Allocator};

/// What is open.
#[derive(Clone, Copy)]
pub(crate) struct Open {
    name: Name,
    /// The line with which it ends, if it is a container.
    last: Option<usize>,
}

/// Events, and what is open in them.
#[derive(Drop)]
pub(crate) struct Merged<A: Allocator> {
    pub(crate) events: Vec<Event, A>,
    /// What is open, the innermost last.
    opened: Vec<Open, A>,
}

/// Whether something stays open after a line.
fn stays_after(line: usize, opened: &Open) -> bool
    ensures { result ≡ stays_after line opened.now }
{
    match opened.last {
        Some(last) => line < last,
        None => true,
    }
}

/// How much stays open after a line: all up to the first container that ends with it.
fn kept_after(line: usize, opened: &[Open]) -> usize
    ensures { result ≡ prefix_len (stays_after line) opened.now }
{
    for (index, one) in opened.iter().enumerate() {
        if !stays_after(line, one) {
            return index;
        }
    }
    opened.len()
}

/// The index at which the white space at the end of these events begins.
#[tactic(auto, using(crate::proofs::MergeSteps::white_step, crate::proofs::MergeSteps::white_short))]
fn white_start(events: &[Event]) -> usize
    ensures { result ≡ white_start events.now }
{
    let mut start = events.len();
    while start >= 2
        && is_white_at(events, Kind::Enter, start - 2)
        && is_white_at(events, Kind::Exit, start - 1)
    {
        start -= 2;
    }
    start
}

/// No events.
pub(crate) fn nothing_merged<A: Allocator + Clone>(alloc: &A) -> Result<Merged<A>, AllocError>
    ensures { IfOk result (λ merged. merged_seen merged ≡ nothing) }
{
    let events = Vec::new(alloc.clone()?);
    Ok(Merged {
        events,
        opened: Vec::new(alloc.clone()?),
    })
}

impl<A: Allocator> Merged<A> {
    ghost use Rattle.std.specs.Prelude.{◌≡◌, OnOk};
    ghost use Rattle.state_parser.specs.Merged.{added, before_left, blank_left, entered, exited, is_innermost, left_to, line_ended, line_left, merged_seen};
    ghost use Rattle.state_parser.specs.Merged.{one_left, outside_left, pushed, step, with_white};

    /// Adds an event, at its place or where the last one is.
    fn add(&mut self, event: &Event) -> Result<(), AllocError>
        ensures { OnOk result (merged_seen self.new ≡ added event.now (merged_seen self.old)) }
    {
        let point = later(end_of(&self.events), event.point());
        let moved = Event::new(event.kind, event.name, point, event.link());
        self.events.push(moved)?;
        Ok(())
    }

    /// Begins an event, which ends with a line if it is a container.
    fn enter(&mut self, last: Option<usize>, event: &Event) -> Result<(), AllocError>
        ensures { OnOk result (merged_seen self.new ≡ entered last event.now (merged_seen self.old)) }
    {
        let name = event.name;
        self.opened.push(Open { name, last })?;
        self.add(event)
    }

    /// Ends the innermost event at a place.
    fn leave_one(&mut self, point: Point) -> Result<(), AllocError>
        ensures { OnOk result (merged_seen self.new ≡ one_left point (merged_seen self.old)) }
    {
        let Some(opened) = self.opened.last().copied() else {
            return Ok(());
        };
        self.opened.truncate(self.opened.len().saturating_sub(1));
        self.add(&Event::new(Kind::Exit, opened.name, point, None))
    }

    /// Whether the innermost event has this name.
    fn is_innermost(&self, name: Name) -> bool
        ensures { result ≡ is_innermost name (merged_seen self.now) }
    {
        match self.opened.last() {
            Some(opened) => opened.name == name,
            None => false,
        }
    }

    /// Ends the innermost event, if it has this name: one that ended with its container is over.
    fn exit(&mut self, event: &Event) -> Result<(), AllocError>
        ensures { OnOk result (merged_seen self.new ≡ exited event.now (merged_seen self.old)) }
    {
        if self.is_innermost(event.name) {
            self.leave_one(event.point())?;
        }
        Ok(())
    }

    /// Ends all that is open, down to so much, at a place.
    #[tactic(auto, using(crate::proofs::MergeSteps::left_step))]
    fn leave(&mut self, kept: usize, point: Point) -> Result<(), AllocError>
        ensures { OnOk result (merged_seen self.new ≡ left_to kept point (merged_seen self.old)) }
    {
        let mut count = self.opened.len().saturating_sub(kept);
        while count > 0 {
            self.leave_one(point)?;
            count -= 1;
        }
        Ok(())
    }

    /// Adds white space.
    fn put_white(&mut self, first: Point, last: Point) -> Result<(), AllocError>
        ensures { OnOk result (merged_seen self.new ≡ with_white first last (merged_seen self.old)) }
    {
        self.add(&Event::new(Kind::Enter, Name::SpaceOrTab, first, None))?;
        self.add(&Event::new(Kind::Exit, Name::SpaceOrTab, last, None))
    }

    /// Ends what is open, down to so much, before the white space that begins at an index, which becomes
    /// one event.
    fn leave_outside(&mut self, start: usize, kept: usize) -> Result<(), AllocError>
        ensures { OnOk result (merged_seen self.new ≡ outside_left start kept (merged_seen self.old)) }
    {
        let first = point_at(&self.events, start);
        let last = end_of(&self.events);
        self.events.truncate(start);
        self.leave(kept, first)?;
        self.put_white(first, last)
    }

    /// Ends what is open, down to so much, before the white space that begins at an index, or else at a
    /// place.
    fn leave_before(&mut self, start: usize, kept: usize, point: Point) -> Result<(), AllocError>
        ensures { OnOk result (merged_seen self.new ≡ before_left start kept point (merged_seen self.old)) }
    {
        if is_white_at(&self.events, Kind::Enter, start) {
            self.leave_outside(start, kept)
        } else {
            self.leave(kept, point)
        }
    }

    /// Ends what is open, down to so much, with a blank line that ends at a place: white space at the
    /// end of the events is outside.
    fn leave_blank(&mut self, kept: usize, point: Point) -> Result<(), AllocError>
        ensures { OnOk result (merged_seen self.new ≡ blank_left kept point (merged_seen self.old)) }
    {
        let start = white_start(&self.events);
        self.leave_before(start, kept, point)
    }

    /// Ends what is open, down to so much, with a line, blank or not, that ends at a place.
    fn leave_line(&mut self, kept: usize, blank: bool, point: Point) -> Result<(), AllocError>
        ensures { OnOk result (merged_seen self.new ≡ line_left kept blank point (merged_seen self.old)) }
    {
        if blank {
            self.leave_blank(kept, point)
        } else {
            self.leave(kept, point)
        }
    }

    /// Ends containers with a line, at its ending.
    fn end_line(&mut self, ending: &Event) -> Result<(), AllocError>
        ensures { OnOk result (merged_seen self.new ≡ line_ended ending.now (merged_seen self.old)) }
    {
        let point = ending.point();
        let kept = kept_after(point.line, &self.opened);
        self.leave_line(kept, ending.name == Name::BlankLineEnding, point)
    }

    /// Adds an event, which ends with a line if it is a container; before the ending of a line come the
    /// ends of containers.
    #[tactic(auto, unfolding(crate::specs::Merged::pushed))]
    pub(crate) fn push(&mut self, last: Option<usize>, event: &Event) -> Result<(), AllocError>
        ensures { OnOk result (merged_seen self.new ≡ pushed (merged_seen self.old) (step last event.now)) }
    {
        if event.kind == Kind::Exit {
            return self.exit(event);
        }
        if is_ending(event) {
            self.end_line(event)?;
        }
        self.enter(last, event)
    }

    /// Ends all that is open, at the text's end, which may be that of a blank line.
    pub(crate) fn end(&mut self, blank: bool, point: Point) -> Result<(), AllocError>
        ensures { OnOk result (merged_seen self.new ≡ line_left 0 blank point (merged_seen self.old)) }
    {
        self.leave_line(0, blank, point)
    }
}
