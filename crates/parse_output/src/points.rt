//! The points of events (CommonMark 2.2).
//!
//! Each event has the point where the one before it is. Only an exit right after the enter of the
//! same name, of what holds no other, is further on.
ghost use Rattle.std.specs.Prelude.{◌≡◌, ◌+◌, ◌*◌, ◌<◌, ◌≤◌, ◌^◌, ◌++◌, [], IfOk, OnOk, length, map, None, true, vec_capacity, vec_len};
ghost use Rattle.engine_events.specs.declared.event.Name.TheVariants.{Paragraph};
ghost use Rattle.engine_events.specs.Events.{event};
ghost use Rattle.parse_output.specs.Children.{HaveChildren, may_enter};
ghost use Rattle.parse_output.specs.Drafts.{AreChildren, draft_marks, marks_of, unmatched_in};
ghost use Rattle.parse_output.specs.declared.end.End.{End};
ghost use Rattle.parse_output.specs.Ends.{Follows, OwesIn, columns_before, end_at, end_place, first_end};
ghost use Rattle.parse_output.specs.Forest.{AreInOrder, GoesOnward, draft_end, draft_events, drafts_end, drafts_events};
ghost use Rattle.parse_output.specs.Open.{mark_of, unmatched};
ghost use Rattle.parse_output.specs.Placed.{ArePlaced, IsTold, beginning};
ghost use Rattle.parse_output.specs.Spots.{ArePlain};
ghost use Rattle.parse_output.specs.Tokens.{GoesOn, IsPlace, IsWhole, place, point_at};

use crate::draft::Draft;
use crate::pass::{MARK_MAX, after_line_feed, is_line_feed, pass_to, plain_end};
use crate::spot::{Place, Spot};
use engine_events::event::Name;
use engine_events::place::tab_size;
use engine_events::{Event, Kind, Point};
use std::alloc::{AllocError, Allocator};

/// The events of drafts, with their points in a text. What they leave of it at its end becomes a paragraph.
pub(crate) fn push_events<A: Allocator>(
    text: &[u8],
    drafts: &[Draft],
    events: Vec<Event, A>,
) -> Result<Vec<Event, A>, AllocError>
    requires fits { length text.now < 2 ^ 61 }
    requires none { events.items ≡ [] }
    requires children { AreChildren drafts.now }
    requires child { may_enter (unmatched_in drafts.now) Paragraph ≡ true }
    ensures placed { IfOk result (λ written. ArePlaced text.now written.items) }
    ensures children { IfOk result (λ written. HaveChildren written.items) }
    ensures open { IfOk result (λ written. unmatched written.items ≡ unmatched_in drafts.now) }
    ensures each { AreInOrder text.now first_end drafts.now → (drafts_end first_end drafts.now).index ≡ length text.now
        → IfOk result (λ written. written.items ≡ drafts_events text.now first_end drafts.now) }
{
    let mut room = events;
    let Some(count) = drafts.len().checked_mul(2) else {
        return Err(AllocError);
    };
    room.reserve_exact(count)?;
    let Told { events, place } = push_drafts(text, drafts, room);
    let mut events = events;
    push_rest(text, place, &mut events)?;
    Ok(events)
}

/// Events, and where they end.
#[derive(Drop)]
struct Told<A: Allocator> {
    events: Vec<Event, A>,
    place: Place,
}

/// The events of drafts, for which there is room.
#[inline(never)]
#[tactic(auto, using(crate::proofs::TokenLists::nothing_told))]
fn push_drafts<A: Allocator>(text: &[u8], drafts: &[Draft], events: Vec<Event, A>) -> Told<A>
    requires fits { length text.now < 2 ^ 61 }
    requires none { events.items ≡ [] }
    requires room { 2 * length drafts.now ≤ vec_capacity events }
    ensures place { IsPlace text.now result.place }
    ensures told { IsTold text.now result.events.items result.place }
    ensures marks { map mark_of result.events.items ≡ marks_of drafts.now }
    ensures end { AreInOrder text.now first_end drafts.now → result.place ≡ end_place text.now (drafts_end first_end drafts.now) }
    ensures each { AreInOrder text.now first_end drafts.now → result.events.items ≡ drafts_events text.now first_end drafts.now }
{
    let mut events = events;
    let mut place = START;
    let mut plain = 0;
    for draft in drafts {
        push_draft(text, &mut plain, &mut place, *draft, &mut events);
    }
    Told { events, place }
}

/// Adds the events of a draft at a place, for which there is room. The place is where they end then.
#[inline(always)]
fn push_draft<A: Allocator>(
    text: &[u8],
    plain: &mut usize,
    place: &mut Place,
    draft: Draft,
    events: &mut Vec<Event, A>,
)
    requires fits { length text.now < 2 ^ 61 }
    requires place { IsPlace text.now place.old }
    requires plain { ArePlain text.now place.old.spot.index plain.old }
    requires told { IsTold text.now events.old.items place.old }
    requires room { vec_len events.old + 2 ≤ vec_capacity events.old }
    ensures place { IsPlace text.now place.new }
    ensures plain { ArePlain text.now place.new.spot.index plain.new }
    ensures told { IsTold text.now events.new.items place.new }
    ensures marks { map mark_of events.new.items ≡ map mark_of events.old.items ++ draft_marks draft }
    ensures end { (from : End) → GoesOnward text.now from draft → place.old ≡ end_place text.now from
        → place.new ≡ end_place text.now (draft_end from draft) }
    ensures each { (from : End) → from.index ≤ length text.now → GoesOnward text.now from draft → place.old ≡ end_place text.now from
        → events.new.items ≡ events.old.items ++ draft_events text.now from draft }
    ensures len { vec_len events.new ≤ vec_len events.old + 2 }
    ensures capacity { vec_capacity events.new ≡ vec_capacity events.old }
{
    match draft {
        Draft::Enter(name) => events.push_reserved(place.event(Kind::Enter, name)),
        Draft::Exit(name) => events.push_reserved(place.event(Kind::Exit, name)),
        Draft::Void { name, owed, index } => {
            events.push_reserved(place.event(Kind::Enter, name));
            place.pass(text, plain, index, owed);
            events.push_reserved(place.event(Kind::Exit, name));
        }
    }
}

/// A paragraph of data up to the end of the text, unless the events end there.
#[tactic(auto, using(crate::proofs::TokenLists::all_placed, crate::proofs::TokenLists::rest_placed, crate::proofs::Marks::two_more, crate::proofs::MoreChildren::rest_children))]
fn push_rest<A: Allocator>(
    text: &[u8],
    place: Place,
    events: &mut Vec<Event, A>,
) -> Result<(), AllocError>
    requires fits { length text.now < 2 ^ 61 }
    requires place { IsPlace text.now place }
    requires told { IsTold text.now events.old.items place }
    requires children { HaveChildren events.old.items }
    requires child { may_enter (unmatched events.old.items) Paragraph ≡ true }
    ensures placed { OnOk result (ArePlaced text.now events.new.items) }
    ensures open { OnOk result (unmatched events.new.items ≡ unmatched events.old.items) }
    ensures children { OnOk result (HaveChildren events.new.items) }
    ensures none { place.spot.index ≡ length text.now → OnOk result (events.new.items ≡ events.old.items) }
{
    if place.spot.index == text.len() {
        return Ok(());
    }
    let end = place.pass_to(text, place.spot.index, text.len(), 0);
    events.push(place.event(Kind::Enter, Name::Paragraph))?;
    events.push(place.event(Kind::Enter, Name::Data))?;
    events.push(end.event(Kind::Exit, Name::Data))?;
    events.push(end.event(Kind::Exit, Name::Paragraph))?;
    Ok(())
}

/// The start of a text.
pub(crate) const START: Place = Place {
    spot: Spot {
        line: 1,
        column: 1,
        index: 0,
        returned: false,
    },
    vs: 0,
};

impl Place {
    /// Its point.
    fn point(self) -> Point
        requires { self.spot.column ≤ 2 ^ 63 + 1 }
        ensures { result ≡ point_at self }
    {
        Point {
            line: self.spot.line,
            column: self.spot.column + usize::from(self.vs),
            index: self.spot.index,
            vs: self.vs,
        }
    }

    /// An event here.
    pub(crate) fn event(self, kind: Kind, name: Name) -> Event
        requires { self.spot.column ≤ 2 ^ 63 + 1 }
        ensures { result ≡ event kind name (point_at self) None }
    {
        Event::new(kind, name, self.point(), None)
    }

    /// Goes to an index of a text, before so many columns of the tab there, if that is further on. The
    /// bytes from the place up to `plain` take one column each and end no line.
    #[inline(always)]
    fn pass(&mut self, text: &[u8], plain: &mut usize, index: usize, owed: u8)
        requires fits { length text.now < 2 ^ 61 }
        requires place { IsPlace text.now self.old }
        requires plain { ArePlain text.now self.old.spot.index plain.old }
        ensures place { IsPlace text.now self.new }
        ensures goes_on { GoesOn text.now self.old self.new }
        ensures end { (from : End) → self.old ≡ end_place text.now from → Follows text.now from (end_at index owed)
            → self.new ≡ end_place text.now (end_at index owed) }
        ensures plain { ArePlain text.now self.new.spot.index plain.new }
    {
        let from = self.spot.index;
        if owed == 0 && MARK_MAX <= from && from < index && index <= *plain {
            self.spot.column += index - from;
            self.spot.index = index;
            self.spot.returned = false;
            self.vs = 0;
        } else if owed == 0 && MARK_MAX <= from && is_line_feed(text, from, index) {
            self.spot = after_line_feed(self.spot);
            self.vs = 0;
            *plain = plain_end(text, index, *plain);
        } else {
            *self = self.pass_to(text, *plain, index, owed);
            *plain = plain_end(text, self.spot.index, *plain);
        }
    }

    /// The place at an index of a text, before so many columns of the tab there, if it is further on.
    /// The bytes up to `plain` take one column each and end no line.
    #[inline(never)]
    #[tactic(auto, using(crate::proofs::TokenLists::stays))]
    pub(crate) fn pass_to(self, text: &[u8], plain: usize, index: usize, owed: u8) -> Place
        requires fits { length text.now < 2 ^ 61 }
        requires place { IsPlace text.now self }
        requires plain { ArePlain text.now self.spot.index plain }
        ensures place { IsPlace text.now result }
        ensures goes_on { GoesOn text.now self result }
        ensures end { (from : End) → self ≡ end_place text.now from → Follows text.now from (end_at index owed)
            → result ≡ end_place text.now (end_at index owed) }
        ensures index { length text.now ≤ index → result.spot.index ≡ length text.now }
    {
        let to = index.min(text.len()).max(self.spot.index);
        if to == self.spot.index {
            let vs = columns_before(text, self.spot, owed);
            return if vs > self.vs {
                Place {
                    spot: self.spot,
                    vs,
                }
            } else {
                self
            };
        }
        let spot = pass_to(text, plain, self.spot, to);
        Place {
            spot,
            vs: columns_before(text, spot, owed),
        }
    }
}

/// How many columns of the tab at a place are before so many of them.
fn columns_before(text: &[u8], spot: Spot, owed: u8) -> u8
    ensures whole { IsWhole text.now (place spot result) }
    ensures columns { OwesIn text.now spot owed → result ≡ columns_before spot owed }
{
    if owed == 0 || spot.index >= text.len() || text[spot.index] != b'\t' {
        return 0;
    }
    let size = tab_size(spot.column);
    if usize::from(owed) < size {
        (size - usize::from(owed)) as u8
    } else {
        0
    }
}
