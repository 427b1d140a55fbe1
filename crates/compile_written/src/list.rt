//! Which lists are loose (CommonMark 5.3).
//!
//! A list is loose if two neighbouring items are more than a line apart, or two neighbouring blocks
//! of an item. The events are passed from the last to the first, so that no list is read again for
//! the lists around it. Of events that are neither lists nor items only the number is kept.
ghost use Rattle.std.specs.Prelude.{◌≡◌, ◌<◌, ◌≤◌, ◌+◌, ◌^◌, ◌||◌, ◌∷◌, Bool, List, ℕ, IfOk, None, OnOk, drop, length, reverse};
ghost use Rattle.event_grammar.specs.Points.{spot_of};
ghost use Rattle.event_grammar.specs.Trees.{Nodes, events_of, AreNodes};
ghost use Rattle.engine_events.specs.declared.event.Kind.TheVariants as kinds;
ghost use Rattle.compile_written.specs.declared.list.Level.{Level as ALevel};
ghost use Rattle.compile_written.specs.List.{around, before_enter, before_exit, compared_in, compares, is_before, is_list, first_level, levels_in, levels_of};
ghost use Rattle.compile_written.specs.List.{level_view, loose_lists, new_level, pass_event, pass_next, pass_start, pass_view, passed};

use engine_events::event::{Event, Kind, Name};
use event_check::loose::is_apart;
use event_grammar::Child;
use event_grammar::slots::has;
use event_grammar::spot::{Spot, spot_of};
use std::alloc::{AllocError, Allocator};

/// What is known of the children of an event after some place.
#[derive(Clone, Copy)]
pub struct Level {
    /// Which children are compared.
    child: Option<Child>,
    /// Where the first of them begins.
    next: Option<Spot>,
    /// Whether some two neighbours of them are more than a line apart.
    apart: bool,
    /// In a list, whether one of them is a loose item.
    loose: bool,
}

/// A list or an item that is open behind a place, or the whole list of events.
#[derive(Clone, Copy)]
pub struct OpenLevel {
    level: Level,
    /// How many events are open in it, none of them a list or an item.
    depth: usize,
}

/// A pass over events from the last to the first.
#[derive(Drop)]
struct Pass<A: Allocator> {
    inner: OpenLevel,
    /// The lists and items around it, the innermost last.
    outer: Vec<OpenLevel, A>,
    /// Whether the lists that were passed are loose, that of the first enter last.
    lists: Vec<bool, A>,
}

/// Returns for each list whether it is loose, with its items (CommonMark 5.3): that of the first
/// enter last, so that who goes over the events pops one at each enter. The only error is out of
/// memory.
pub fn loose_lists<A: Allocator + Clone>(
    alloc: A,
    bytes: &[u8],
    events: &[Event],
) -> Result<Vec<bool, A>, AllocError>
    ensures { (ns : Nodes) → AreNodes ns → events.now ≡ events_of ns → IfOk result (λ lists. reverse lists.items ≡ loose_lists bytes.now ns) }
{
    let mut pass = Pass {
        inner: OpenLevel::new(None),
        outer: Vec::new(alloc.clone()?),
        lists: Vec::new(alloc),
    };
    let mut end = events.len();
    while end > 0 {
        let index = end - 1;
        pass.event(bytes, &events[index])?;
        end = pass.others(events, index);
    }
    let Pass { lists, .. } = pass;
    Ok(lists)
}

/// Passes events before an index that are neither lists nor items, in a list or an item in which so
/// many are open, as long as at least so many are. Returns how many are open then, and the index of
/// the first that was passed.
fn pass_others(events: &[Event], end: usize, depth: usize, least: usize) -> (usize, usize)
    requires within { end ≤ length events.now }
    requires fits { depth + end < 2 ^ 64 }
    ensures passed { (bytes : List ℕ) (level : ALevel) (ls : List ALevel) (lists : List Bool) → (least ≡ 0 → level.child ≡ None) →
        level_view depth level ls lists ≡ passed bytes pass_start (drop end events.now) →
        level_view result.0 level ls lists ≡ passed bytes pass_start (drop result.1 events.now) }
    ensures within { result.1 ≤ end }
{
    if depth < least {
        return (depth, end);
    }
    let mut inside = depth;
    let mut first = end;
    while first > 0 {
        let event = &events[first - 1];
        match event.kind {
            Kind::Exit => {
                if compared_in(event.name).is_some() {
                    return (inside, first);
                }
                inside += 1;
            }
            Kind::Enter => {
                if inside <= least || is_list(event.name) {
                    return (inside, first);
                }
                inside -= 1;
            }
        }
        first -= 1;
    }
    (inside, 0)
}

impl<A: Allocator> Pass<A> {
    /// One event more, before the others.
    fn event(&mut self, bytes: &[u8], event: &Event) -> Result<(), AllocError>
        requires { self.old.inner.depth + 1 < 2 ^ 64 }
        ensures { OnOk result (pass_view self.new ≡ pass_event bytes.now (pass_view self.old) event.now) }
    {
        let at = spot_of(event);
        match event.kind {
            Kind::Enter => self.enter(event.name, at)?,
            Kind::Exit => self.exit(bytes, event.name, at)?,
        }
        Ok(())
    }

    /// Passes events before an index that are neither lists nor items, as long as these change nothing
    /// but how many are open. Returns the index of the first that was passed.
    fn others(&mut self, events: &[Event], end: usize) -> usize
        requires within { end ≤ length events.now }
        requires fits { self.old.inner.depth + end < 2 ^ 64 }
        ensures passed { (bytes : List ℕ) →
            pass_view self.old ≡ passed bytes pass_start (drop end events.now) → pass_view self.new ≡ passed bytes pass_start (drop result events.now) }
        ensures within { result ≤ end }
    {
        let (depth, first) = pass_others(events, end, self.inner.depth, self.inner.least_depth());
        self.inner.depth = depth;
        first
    }

    /// The exit of an event.
    fn exit(&mut self, bytes: &[u8], name: Name, at: Spot) -> Result<(), AllocError>
        requires { self.old.inner.depth + 1 < 2 ^ 64 }
        ensures { OnOk result (pass_view self.new ≡ pass_next bytes.now kinds.Exit name at (pass_view self.old)) }
    {
        if self.inner.depth != 0 && compared_in(name).is_none() {
            self.inner.depth += 1;
            return Ok(());
        }
        let inner = self.inner.before_exit(bytes, name, at);
        match compared_in(name) {
            None => self.inner = inner.deeper(),
            Some(child) => {
                self.outer.push(inner)?;
                self.inner = OpenLevel::new(Some(child));
            }
        }
        Ok(())
    }

    /// The enter of the innermost event that is open.
    fn enter(&mut self, name: Name, at: Spot) -> Result<(), AllocError>
        ensures { (bytes : List ℕ) → OnOk result (pass_view self.new ≡ pass_next bytes kinds.Enter name at (pass_view self.old)) }
    {
        if self.inner.depth > 1 && !is_list(name) {
            self.inner.depth -= 1;
            return Ok(());
        }
        if is_list(name) {
            self.lists.push(self.inner.is_loose())?;
        }
        let apart = self.inner.is_apart();
        self.inner = self.leave().before_enter(name, at, apart);
        Ok(())
    }

    /// What is open around the innermost event.
    fn leave(&mut self) -> OpenLevel
        ensures level { first_level (levels_of result (around (reverse self.new.outer.items))) ≡ first_level (drop 1 (levels_in self.old)) }
        ensures outer { drop 1 (levels_of result (around (reverse self.new.outer.items))) ≡ drop 1 (drop 1 (levels_in self.old)) }
        ensures inner { self.new.inner ≡ self.old.inner }
        ensures lists { self.new.lists ≡ self.old.lists }
    {
        if self.inner.depth != 0 {
            return OpenLevel {
                level: self.inner.level,
                depth: self.inner.depth - 1,
            };
        }
        match self.outer.pop() {
            Some(outer) => outer,
            None => OpenLevel::new(None),
        }
    }
}

impl OpenLevel {
    /// Nothing of it was passed.
    fn new(child: Option<Child>) -> OpenLevel
        ensures level { result.level ≡ new_level child }
        ensures depth { result.depth ≡ 0 }
    {
        OpenLevel {
            level: Level::new(child),
            depth: 0,
        }
    }

    /// How many events must be open so that others in them change nothing of it: none if it compares
    /// no children.
    fn least_depth(self) -> usize
        ensures { result ≡ 0 → self.level.child ≡ None }
    {
        if self.level.child.is_none() { 0 } else { 1 }
    }

    /// With one event more that is open.
    fn deeper(self) -> OpenLevel
        requires { self.depth + 1 < 2 ^ 64 }
        ensures level { result.level ≡ self.level }
        ensures depth { result.depth ≡ self.depth + 1 }
    {
        OpenLevel {
            level: self.level,
            depth: self.depth + 1,
        }
    }

    /// Before the exit of an event in the innermost one that is open.
    fn before_exit(self, bytes: &[u8], name: Name, at: Spot) -> OpenLevel
        ensures levels { (ls : List ALevel) → levels_of result ls ≡ before_exit bytes.now name at (first_level (levels_of self ls)) ∷ drop 1 (levels_of self ls) }
        ensures depth { result.depth ≡ self.depth }
    {
        if self.depth != 0 {
            return self;
        }
        OpenLevel {
            level: self.level.before_exit(bytes, name, at),
            depth: 0,
        }
    }

    /// Before the enter of an event in the innermost one that is open, of which some two blocks are
    /// more than a line apart or aren't.
    fn before_enter(self, name: Name, at: Spot, apart: bool) -> OpenLevel
        ensures { (ls : List ALevel) → levels_of result ls ≡ before_enter name at apart (first_level (levels_of self ls)) ∷ drop 1 (levels_of self ls) }
    {
        if self.depth != 0 {
            return self;
        }
        OpenLevel {
            level: self.level.before_enter(name, at, apart),
            depth: 0,
        }
    }

    /// Whether some two neighbours in the innermost event are more than a line apart.
    fn is_apart(self) -> bool
        ensures { (ls : List ALevel) → result ≡ (first_level (levels_of self ls)).apart }
    {
        self.depth == 0 && self.level.apart
    }

    /// Whether the innermost event is a list that is loose.
    fn is_loose(self) -> bool
        ensures { (ls : List ALevel) → result ≡ ((first_level (levels_of self ls)).apart || (first_level (levels_of self ls)).loose) }
    {
        self.depth == 0 && (self.level.apart || self.level.loose)
    }
}

impl Level {
    fn new(child: Option<Child>) -> Level
        ensures { result ≡ new_level child }
    {
        Level {
            child,
            next: None,
            apart: false,
            loose: false,
        }
    }

    /// Before the exit of a child.
    fn before_exit(self, bytes: &[u8], name: Name, at: Spot) -> Level
        ensures { result ≡ before_exit bytes.now name at self }
    {
        Level {
            apart: self.compares(name) && is_before(bytes, at, self.next) || self.apart,
            ..self
        }
    }

    /// Before the enter of a child, of which some two blocks are more than a line apart or aren't.
    fn before_enter(self, name: Name, at: Spot, apart: bool) -> Level
        ensures { result ≡ before_enter name at apart self }
    {
        if self.compares(name) {
            Level {
                next: Some(at),
                loose: apart || self.loose,
                ..self
            }
        } else {
            self
        }
    }

    /// Whether a child of this name is compared with its neighbours.
    fn compares(self, name: Name) -> bool
        ensures { result ≡ compares self.child name }
    {
        match self.child {
            None => false,
            Some(child) => has(child, name),
        }
    }
}

/// Whether a place is more than a line before the next one. Without a next one it isn't.
fn is_before(bytes: &[u8], at: Spot, next: Option<Spot>) -> bool
    ensures { result ≡ is_before bytes.now at next }
{
    match next {
        None => false,
        Some(next) => is_apart(bytes, at.index, next.index),
    }
}

/// Which children of an event are compared: the items of a list, the blocks of an item.
fn compared_in(name: Name) -> Option<Child>
    ensures { result ≡ compared_in name }
{
    if is_list(name) {
        Some(Child::Only(Name::ListItem))
    } else if name == Name::ListItem {
        Some(Child::Block)
    } else {
        None
    }
}

fn is_list(name: Name) -> bool
    ensures { result ≡ is_list name }
{
    name == Name::ListOrdered || name == Name::ListUnordered
}
