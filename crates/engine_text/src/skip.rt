//! Skips runs of events, forward or backward.
//!
//! A whole event is an enter, the events inside, and its exit.
ghost use Rattle.std.specs.Prelude.{◌≡◌, ◌≤◌, ◌<◌, ◌+◌, ◌-◌, ◌^◌, ◌∷◌, IsTrue, List, length, take, drop, reverse, false};
ghost use Rattle.std.specs.List.{list_any};
ghost use Rattle.engine_events.specs.declared.event.Event.{Event};
ghost use Rattle.engine_text.specs.Skips.{opens, has_name, whole, whole_from, whole_back, first_named, last_named};

use engine_events::event::Name;
use engine_events::{Event, Kind};

/// The index past the whole events with listed names that stand at an index, one after another.
pub fn opt(events: &[Event], index: usize, names: &[Name]) -> usize
    requires { length events.now < 2 ^ 61 }
    ensures { result ≡ index + whole names.now (drop index events.now) }
{
    let mut run = Run::new(true);
    for at in index..events.len() {
        if !run.take(&events[at], names) {
            break;
        }
    }
    index + run.done
}

/// The index before the whole events with listed names that end at an index, one after another;
/// 0 where the first event is among them.
pub fn opt_back(events: &[Event], index: usize, names: &[Name]) -> usize
    requires { length events.now < 2 ^ 61 }
    ensures { result ≡ whole_back names.now index events.now }
{
    if index >= events.len() {
        return index;
    }
    index.saturating_sub(whole_before(&events[..index + 1], names))
}

/// How many events the whole events with listed names have that stand last, one after another.
fn whole_before(events: &[Event], names: &[Name]) -> usize
    requires { length events.now < 2 ^ 61 }
    ensures { result ≡ whole_from false names.now 0 0 (reverse events.now) }
{
    let mut run = Run::new(false);
    let mut left = events.len();
    while left > 0 {
        left -= 1;
        if !run.take(&events[left], names) {
            return run.done;
        }
    }
    run.done
}

/// Returns the first index from an index on whose event has a listed name, or the number of events.
///
/// An index past the last event is returned as it is.
pub fn to(events: &[Event], index: usize, names: &[Name]) -> usize
    ensures { result ≡ first_named names.now index events.now }
{
    for at in index..events.len() {
        if names.contains(&events[at].name) {
            return at;
        }
    }
    index.max(events.len())
}

/// Returns the last index up to an index whose event has a listed name.
///
/// An index past the last event is returned as it is.
pub fn to_back(events: &[Event], index: usize, names: &[Name]) -> usize
    requires { index < length events.now
        → IsTrue (list_any (has_name names.now) (take (index + 1) events.now)) }
    ensures { result ≡ last_named names.now index events.now }
{
    if index >= events.len() {
        return index;
    }
    let mut left = index + 1;
    while left > 0 {
        left -= 1;
        if names.contains(&events[left].name) {
            return left;
        }
    }
    unreachable!()
}

/// A run over whole events.
#[derive(Clone, Copy)]
struct Run {
    /// Whether it goes forward, so that enters open.
    forward: bool,
    /// How many events whole events took.
    done: usize,
    /// How many events the one that is open took so far.
    pending: usize,
    /// How many events are open.
    depth: usize,
}

impl Run {
    ghost use Rattle.std.specs.Prelude.{◌≡◌, ◌≤◌, ◌<◌, ◌+◌, ◌^◌, ◌∷◌, List, MatchBool};
    ghost use Rattle.engine_events.specs.declared.event.Event.{Event};
    ghost use Rattle.engine_text.specs.Skips.{whole_from};

    fn new(forward: bool) -> Run
        ensures { result ≡ record { forward = forward; done = 0; pending = 0; depth = 0 } }
    {
        Run {
            forward,
            done: 0,
            pending: 0,
            depth: 0,
        }
    }

    /// Takes an event. Answers false where the run has ended.
    fn take(&mut self, event: &Event, names: &[Name]) -> bool
        requires few { self.old.done + self.old.pending < 2 ^ 62 }
        requires deep { self.old.depth ≤ self.old.pending }
        ensures few { self.new.done + self.new.pending ≤ self.old.done + self.old.pending + 1 }
        ensures deep { self.new.depth ≤ self.new.pending }
        ensures forward { self.new.forward ≡ self.old.forward }
        ensures goes { (events : List Event) → MatchBool result
            (self.old.done + whole_from self.old.forward names.now self.old.pending self.old.depth (event.now ∷ events)
            ≡ self.new.done + whole_from self.new.forward names.now self.new.pending self.new.depth events)
            (self.old.done + whole_from self.old.forward names.now self.old.pending self.old.depth (event.now ∷ events) ≡ self.new.done) }
    {
        if self.depth == 0 && !(opens(event, self.forward) && names.contains(&event.name)) {
            return false;
        }
        self.pending += 1;
        if opens(event, self.forward) {
            self.depth += 1;
        } else {
            self.depth -= 1;
        }
        if self.depth == 0 {
            self.done += self.pending;
            self.pending = 0;
        }
        true
    }
}

/// Whether an event opens what it names, forward or backward.
fn opens(event: &Event, forward: bool) -> bool
    ensures { result ≡ opens forward event.now }
{
    match event.kind {
        Kind::Enter => forward,
        Kind::Exit => !forward,
    }
}
