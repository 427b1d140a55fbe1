//! The tokenizer and the machines that it runs.
ghost use Rattle.std.specs.Prelude.{◌≡◌, ◌+◌, ◌<◌, ◌≤◌, ◌++◌, [], ◌∷◌, length, None, Some, false, true, ◌⊎◌, List, OnOk, OnErr, IfOk, IfErr, IsOk};
ghost use Rattle.markdown_options.specs.Messages.{IsOutOfMemory};
ghost use Rattle.engine_states.specs.declared.state.State.TheVariants as states;
ghost use Rattle.markdown_engine.specs.Reading.{Steps, mark, restore, continuation, with_byte};
ghost use Rattle.std.specs.BTreeMap.{insert_entry};
ghost use Rattle.markdown_engine.specs.Machine.{Became, Began, HasEnded, HasFailed, HasFlushed, HasPushed, HasReached, IsRefused, SameText, Shows, frame_at};
ghost use Rattle.markdown_engine.specs.Machine.{bytes_of, config, past_byte, with_enter, with_exit, read_with, view_config, source, KeepsParseState};
ghost use Rattle.markdown_engine.specs.Machine.{KeepsAttempts, to_run_first, to_run_last};
ghost use Rattle.markdown_engine.specs.Resolvers.{AreOnce, is_registered};
ghost use Rattle.markdown_engine.specs.VirtualText.{is_before, line_start};
ghost use Rattle.markdown_engine.specs.Laws.{Holds, Ranks, Lawful};
ghost use Rattle.markdown_engine.specs.Context.{Context};
ghost use Rattle.markdown_engine.specs.Resolving.{Resolves, Settles, Resolving, found_of};
ghost use Rattle.engine_states.specs.declared.resolve.Name.{Name as Resolver};
ghost use Rattle.markdown_engine.specs.Order.{IsInnermost};

use crate::attempt::Attempt;
use crate::parse_state::ParseState;
use crate::tokenize_state::TokenizeState;
use crate::virtual_text::{VirtualByte, is_before, line_start, place_in, place_over, virtual_byte};
use engine_edits::EditMap;
use engine_events::event::Name as EventName;
use engine_events::{Event, Kind, Link, Point};
use engine_states::state::Name;
use engine_states::{State, Subresult, resolve};
use markdown_options::{Message, Tables};
use std::alloc::{AllocError, Allocator};
use std::collections::BTreeMap;

/// A set of states. A state reads a tokenizer's byte, changes the tokenizer by its calls, and
/// returns the next state.
pub trait Machine<T: Tables> {
    // What configurations show of the machine: all of it, or a view, as of a tokenizer that it holds.
    ghost Seen: { Type 0 };

    ghost seen: { Self → Seen };

    // What a state does.
    ghost step: { Context T → Steps Seen };

    // What holds whenever a state is next.
    ghost valid: { Holds T Seen };

    // A number that falls with every turn.
    ghost rank: { Ranks T Seen };

    // What a resolver does.
    ghost resolved: { Context T → Resolves Seen };

    // What holds whenever resolvers are still to run.
    ghost settled: { Settles T Seen };

    /// Calls a state.
    fn call<'a, A: Allocator>(tokenizer: &mut Tokenizer<'a, Self, T, A>, name: Name) -> State
        requires { valid (read_with tokenizer.old) (view_config seen tokenizer.old) tokenizer.old.attempts.items (states.Retry name) }
        ensures { Shows seen (step (read_with tokenizer.old) (view_config seen tokenizer.old) name) tokenizer.old tokenizer.new result };

    /// Runs a resolver, and answers what it found, if anything.
    fn resolve<'a, A: Allocator + Clone>(
        tokenizer: &mut Tokenizer<'a, Self, T, A>,
        name: resolve::Name,
    ) -> Result<Option<Subresult<A>>, Message>
        requires { (more : List Resolver) × settled (read_with tokenizer.old) (view_config seen tokenizer.old) (name ∷ more) }
        ensures config { OnOk result (view_config seen tokenizer.new ≡ (resolved (read_with tokenizer.old) (view_config seen tokenizer.old) name).config) }
        ensures found { IfOk result (λ found. found_of found ≡ (resolved (read_with tokenizer.old) (view_config seen tokenizer.old) name).found) }
        ensures parse_state { tokenizer.new.parse_state.now ≡ tokenizer.old.parse_state.now }
        ensures memory { IfErr result IsOutOfMemory };

    // The laws of reading: a state only adds events, and answers `Next` after exactly one `consume`
    // and `Retry` after none; each turn of the tokenizer keeps what holds; reading ends; events are
    // nested and in order of place, and none is open at the end.
    ghost lawful: { Lawful valid step rank };

    // Each resolver keeps what holds, and leaves edits that can be made.
    ghost resolving: { Resolving valid resolved settled };
}

/// Reads a text by a machine's states.
#[derive(Drop)]
pub struct Tokenizer<'a, M, T, A: Allocator> {
    /// The text, and what it is read with.
    pub parse_state: &'a ParseState<'a, T, A>,
    /// The events up to here.
    pub events: Vec<Event, A>,
    /// The attempts that wait, the innermost last.
    pub attempts: Vec<Attempt, A>,
    /// Where reading is.
    pub point: Point,
    /// The place after the byte that is read.
    pub next: Point,
    /// Where the line starts, before what is skipped.
    pub line_start: Point,
    /// The byte before it.
    pub previous: Option<u8>,
    /// The byte that is read; none at the text's end, and once it is consumed.
    pub current: Option<u8>,
    /// What states keep for one another.
    pub tokenize_state: TokenizeState<A>,
    /// The edits of the events that are to be made once resolvers have run.
    pub map: EditMap<A>,
    /// The resolvers that are to run, in their order.
    pub resolvers: Vec<resolve::Name, A>,
    /// Whether what is read interrupts a paragraph.
    pub interrupt: bool,
    /// Whether the line is a lazy continuation line (CommonMark 5.1).
    pub lazy: bool,
    /// Whether nothing may interrupt what is read.
    pub concrete: bool,
    /// Whether what is read may end a container although its line goes on with it.
    pub pierce: bool,
    pub machine: M,
    /// Where the lines are read from that have a skip, by the index of their start.
    pub skips: BTreeMap<usize, Point, A>,
    /// Where the last range ended: an index, and a column of a tab there.
    pub end: (usize, usize),
    /// Whether memory ran out. Then nothing can be read any more.
    pub failed: bool,
}

/// The events, the attempts and the resolvers of a tokenizer that has none.
fn empty_lists<A: Allocator + Clone>(
    alloc: &A,
) -> Result<(Vec<Event, A>, Vec<Attempt, A>, Vec<resolve::Name, A>), AllocError>
    ensures { IfOk result (λ lists. (lists.0.items ≡ []) × (lists.1.items ≡ []) × (lists.2.items ≡ [])) }
{
    let events = Vec::new(alloc.clone()?);
    let attempts = Vec::new(alloc.clone()?);
    let resolvers = Vec::new(alloc.clone()?);
    Ok((events, attempts, resolvers))
}

impl<'a, M, T, A: Allocator + Clone> Tokenizer<'a, M, T, A> {
    ghost use Rattle.std.specs.Prelude.{◌≡◌, [], None, false, IfOk, IfErr, OnOk, OnErr, length, ◌≤◌};
    ghost use Rattle.std.specs.Ordering.{nat_cmp};
    ghost use Rattle.std.specs.BTreeMap.{insert_entry};
    ghost use Rattle.markdown_engine.specs.Machine.{KeepsAttempts, NothingWaits, bytes_of, config, fresh_config};
    ghost use Rattle.markdown_engine.specs.VirtualText.{line_start};
    ghost use Rattle.markdown_options.specs.Messages.{IsOutOfMemory};

    /// A tokenizer at a place of a text; nothing was read.
    pub fn new(
        alloc: A,
        point: Point,
        parse_state: &'a ParseState<'a, T, A>,
        machine: M,
    ) -> Result<Tokenizer<'a, M, T, A>, Message>
    where
        M: Drop,
        ensures config { IfOk result (λ tokenizer. config tokenizer ≡ fresh_config point machine) }
        ensures attempts { IfOk result NothingWaits }
        ensures parse_state { IfOk result (λ tokenizer. tokenizer.parse_state.now ≡ parse_state.now) }
        ensures skips { IfOk result (λ tokenizer. tokenizer.skips.entries ≡ []) }
        ensures end { IfOk result (λ tokenizer. tokenizer.end ≡ (0, 0)) }
        ensures failed { IfOk result (λ tokenizer. tokenizer.failed ≡ false) }
        ensures memory { IfErr result IsOutOfMemory }
    {
        let tokenize_state = TokenizeState::new(alloc.clone()?)?;
        let map = EditMap::new(alloc.clone()?);
        let (events, attempts, resolvers) = empty_lists(&alloc)?;
        Ok(Tokenizer {
            parse_state,
            events,
            attempts,
            point,
            next: point,
            line_start: point,
            previous: None,
            current: None,
            tokenize_state,
            map,
            resolvers,
            interrupt: false,
            lazy: false,
            concrete: false,
            pierce: false,
            machine,
            skips: BTreeMap::new(alloc),
            end: (0, 0),
            failed: false,
        })
    }

    /// Makes the reading of a point's line begin at the point, whenever the line is read. After out of
    /// memory nothing can be read any more.
    pub fn define_skip(&mut self, point: Point) -> Result<(), Message>
        requires { point.index ≤ length (bytes_of self.old) }
        ensures skips { OnOk result (self.new.skips.entries ≡
            insert_entry nat_cmp self.old.skips.entries (line_start self.old.parse_state.now.bytes.now point.index) point) }
        ensures err { OnErr result (self.new.skips.entries ≡ self.old.skips.entries) }
        ensures end { self.new.end ≡ self.old.end }
        ensures config { config self.new ≡ config self.old }
        ensures attempts { KeepsAttempts self.old self.new }
        ensures parse_state { KeepsParseState self.old self.new }
        ensures failed { OnOk result (self.new.failed ≡ self.old.failed) }
        ensures refused { OnErr result (HasFailed self.new) }
        ensures memory { IfErr result IsOutOfMemory }
    {
        let start = line_start(self.parse_state.bytes, point.index);
        if self.skips.insert(start, point).is_err() {
            self.failed = true;
            return Err(Message::out_of_memory());
        }
        Ok(())
    }
}

impl<'a, M, T, A: Allocator> Tokenizer<'a, M, T, A> {
    /// The events, of a tokenizer that is done.
    pub(crate) fn into_events(self) -> Vec<Event, A>
    where
        M: Drop,
        ensures { result.items ≡ self.entry.events.items }
    {
        self.events
    }

    /// Adds that something begins here. After out of memory nothing can be read any more.
    pub fn enter(&mut self, name: EventName) -> Result<(), Message>
        ensures became { OnOk result (Became (with_enter name None (config self.old)) self.old self.new) }
        ensures text { SameText self.old self.new }
        ensures memory { IfErr result IsOutOfMemory }
        ensures refused { OnErr result (HasFailed self.new) }
    {
        self.add(Event::new(Kind::Enter, name, self.point, None))?;
        Ok(())
    }

    /// Adds that something begins here whose text is read later, together with its neighbours.
    ///
    /// States change no event that was added, so the link names the chunk before, if there is one, and
    /// none after; a resolver joins the chunks at the end, by `link_all`. After out of memory nothing
    /// can be read any more.
    pub fn enter_link(&mut self, name: EventName, link: Link) -> Result<(), Message>
        ensures became { OnOk result (Became (with_enter name (Some link) (config self.old)) self.old self.new) }
        ensures text { SameText self.old self.new }
        ensures memory { IfErr result IsOutOfMemory }
        ensures refused { OnErr result (HasFailed self.new) }
    {
        self.add(Event::new(Kind::Enter, name, self.point, Some(link)))?;
        Ok(())
    }

    /// Adds that what was entered last ends here; right after a line ending, at the line's start.
    /// After out of memory nothing can be read any more.
    pub fn exit(&mut self, name: EventName) -> Result<(), Message>
        requires { IsInnermost name self.old.events.items }
        ensures became { OnOk result (Became (with_exit name (config self.old)) self.old self.new) }
        ensures text { SameText self.old self.new }
        ensures memory { IfErr result IsOutOfMemory }
        ensures refused { OnErr result (HasFailed self.new) }
    {
        let point = if self.previous == Some(b'\n') {
            self.line_start
        } else {
            self.point
        };
        self.add(Event::new(Kind::Exit, name, point, None))?;
        Ok(())
    }

    /// Adds an event, or remembers that memory for it was refused.
    fn add(&mut self, event: Event) -> Result<(), AllocError>
        ensures became { OnOk result (Became (record (config self.old) { events = self.old.events.items ++ event ∷ [] }) self.old self.new) }
        ensures text { SameText self.old self.new }
        ensures refused { OnErr result (HasFailed self.new) }
    {
        if self.events.push(event).is_err() {
            self.failed = true;
            return Err(AllocError);
        }
        Ok(())
    }

    /// Moves over the byte.
    pub fn consume(&mut self)
        ensures { Became (past_byte (config self.old)) self.old self.new }
    {
        // By fields, no two neighbours at once: a wider copy waits for the stores that `hand` has
        // just made, and takes twice as long as the rest of a step.
        self.point.line = self.next.line;
        self.point.index = self.next.index;
        if self.current == Some(b'\n') {
            self.line_start = self.next;
        }
        self.point.column = self.next.column;
        self.point.vs = self.next.vs;
        self.previous = self.current;
        self.current = None;
    }

    /// Makes an attempt: if it succeeds, reading continues with one state. If it fails, reading
    /// goes back here and continues with another. After out of memory nothing can be read any more.
    pub fn attempt(&mut self, ok: State, nok: State) -> Result<(), Message>
        ensures began { Began (frame_at false ok nok (config self.old)) self.old self.new result }
        ensures memory { IfErr result IsOutOfMemory }
        ensures refused { OnErr result (HasFailed self.new) }
    {
        self.begin(false, ok, nok)
    }

    /// Looks ahead: reading goes back here in either case, and continues with one state or the
    /// other. After out of memory nothing can be read any more.
    pub fn check(&mut self, ok: State, nok: State) -> Result<(), Message>
        ensures began { Began (frame_at true ok nok (config self.old)) self.old self.new result }
        ensures memory { IfErr result IsOutOfMemory }
        ensures refused { OnErr result (HasFailed self.new) }
    {
        self.begin(true, ok, nok)
    }

    /// Begins an attempt here.
    fn begin(&mut self, check: bool, ok: State, nok: State) -> Result<(), Message>
        ensures began { Began (frame_at check ok nok (config self.old)) self.old self.new result }
        ensures memory { IfErr result IsOutOfMemory }
        ensures refused { OnErr result (HasFailed self.new) }
    {
        let attempt = Attempt {
            check,
            ok,
            nok,
            events: self.events.len(),
            point: self.point,
            next: self.next,
            line_start: self.line_start,
            previous: self.previous,
            current: self.current,
        };
        if self.attempts.push(attempt).is_err() {
            self.failed = true;
            return Err(Message::out_of_memory());
        }
        Ok(())
    }

    /// Registers a resolver to run after those that are registered; one that is stays where it is.
    /// After out of memory nothing can be read any more.
    pub fn register_resolver(&mut self, name: resolve::Name) -> Result<(), Message>
        ensures became { OnOk result (Became (to_run_last name (config self.old)) self.old self.new) }
        ensures once { OnOk result (AreOnce self.old.resolvers.items → AreOnce self.new.resolvers.items) }
        ensures there { is_registered name self.old.resolvers.items ≡ true → IsOk result }
        ensures err { OnErr result (config self.new ≡ config self.old) }
        ensures text { SameText self.old self.new }
        ensures memory { IfErr result IsOutOfMemory }
        ensures refused { OnErr result (HasFailed self.new) }
    {
        if self.resolvers.contains(&name) {
            return Ok(());
        }
        if self.resolvers.push(name).is_err() {
            self.failed = true;
            return Err(Message::out_of_memory());
        }
        Ok(())
    }

    /// Registers a resolver to run before those that are registered; one that is stays where it is.
    /// After out of memory nothing can be read any more.
    pub fn register_resolver_before(&mut self, name: resolve::Name) -> Result<(), Message>
        ensures became { OnOk result (Became (to_run_first name (config self.old)) self.old self.new) }
        ensures once { OnOk result (AreOnce self.old.resolvers.items → AreOnce self.new.resolvers.items) }
        ensures there { is_registered name self.old.resolvers.items ≡ true → IsOk result }
        ensures err { OnErr result (config self.new ≡ config self.old) }
        ensures text { SameText self.old self.new }
        ensures memory { IfErr result IsOutOfMemory }
        ensures refused { OnErr result (HasFailed self.new) }
    {
        if self.resolvers.contains(&name) {
            return Ok(());
        }
        if self.resolvers.insert(0, name).is_err() {
            self.failed = true;
            return Err(Message::out_of_memory());
        }
        Ok(())
    }

    /// Goes back to the mark of an attempt.
    fn free(&mut self, attempt: &Attempt)
        ensures config { config self.new ≡ restore attempt.now (config self.old) }
        ensures attempts { KeepsAttempts self.old self.new }
        ensures text { SameText self.old self.new }
    {
        self.events.truncate(attempt.events);
        self.point = attempt.point;
        self.next = attempt.next;
        self.line_start = attempt.line_start;
        self.previous = attempt.previous;
        self.current = attempt.current;
    }

    /// Goes back to the mark of an attempt, unless it went well and isn't a check.
    fn resume(&mut self, attempt: &Attempt, well: bool)
        ensures config { config self.new ≡ continuation attempt.now (config self.old) well }
        ensures attempts { KeepsAttempts self.old self.new }
        ensures text { SameText self.old self.new }
    {
        if !well || attempt.check {
            self.free(attempt);
        }
    }

    /// Hands in the byte of a place, or the text's end there.
    fn hand(&mut self, place: Point, given: Option<VirtualByte>)
        ensures config { config self.new ≡ with_byte (config self.old) place given }
        ensures attempts { KeepsAttempts self.old self.new }
        ensures text { SameText self.old self.new }
    {
        self.point = place;
        match given {
            Some(given) => {
                self.current = Some(given.byte);
                self.next = given.next;
            }
            None => self.current = None,
        }
    }
}

impl<'a, M: Machine<T>, T: Tables, A: Allocator> Tokenizer<'a, M, T, A> {
    ghost use Rattle.markdown_engine.specs.Evaluation.{StaysReadingFrom};
    ghost use Rattle.markdown_engine.specs.Laws.{MovesOn};
    ghost use Rattle.std.specs.Prelude.{◌≡◌, ◌≤◌, ◌<◌, [], length, true, false, ◌⊎◌};
    ghost use Rattle.markdown_engine.specs.Machine.{AreCuts, HasEnded, HasFailed, HasFlushed, OpensRange, HasPushed, HasPushedFrom, ReadWhole};
    ghost use Rattle.markdown_engine.specs.Machine.{HasReached, IsRefused, IsValidAlone, IsValidUnlessFailed, IsValidUnlessRefused, IsWholeUnlessRefused};
    ghost use Rattle.markdown_engine.specs.Machine.{NothingWaits, bytes_of, read_with, view_config, source};
    ghost use Rattle.markdown_engine.specs.Machine.{HaltsFrom, HasHalted, halt_of};
    ghost use Rattle.markdown_engine.specs.VirtualText.{IsCut, byte_before, place_in, text_to};
    ghost use Rattle.markdown_engine.specs.Outcomes.{HasOutcome, HasRun};

    /// Where reading goes on: at the start of a line that has a skip, after it.
    fn place(&self) -> Point
        ensures { result ≡ place_in self.now.skips.entries self.now.point }
    {
        place_in(&self.skips, self.point)
    }

    /// The byte at a place, before the end of a range.
    fn byte_before(&self, place: Point, to: (usize, usize)) -> Option<VirtualByte>
        requires to { IsCut (bytes_of self.now) to }
        ensures { result ≡ byte_before self.now.parse_state.now.bytes.now to place }
    {
        if is_before(place, to) {
            Some(virtual_byte(self.parse_state.bytes, place))
        } else {
            None
        }
    }

    /// Reads up to the end of a range, which may be the text's end, too.
    fn read(&mut self, to: (usize, usize), end: bool, state: State) -> State
        requires to { IsCut (bytes_of self.old) to }
        requires valid { IsValidUnlessRefused M.seen (M.valid (read_with self.old)) self.old state }
        ensures valid { IsValidUnlessRefused M.seen (M.valid (read_with self.old)) self.new result }
        ensures reads { HasPushed M.seen (M.step (read_with self.old)) to end state self.old self.new result }
        ensures halts { IsRefused result ⊎ HasHalted M.seen M.step M.rank to end (halt_of M.seen self.old state) self.old self.new result }
        ensures reached { HasReached to self.new result }
        ensures moves_on { MovesOn result }
        ensures ends { end ≡ true → IsRefused result ⊎ HasEnded self.new result }
        ensures failed { IsRefused result → HasFailed self.new }
    {
        let mut next = state;
        'turns: loop {
            match next {
                State::Error(_) => {
                    self.failed = true;
                    return next;
                }
                State::Ok => match self.attempts.pop() {
                    None => return next,
                    Some(attempt) => {
                        self.resume(&attempt, true);
                        next = attempt.ok;
                    }
                },
                State::Nok => match self.attempts.pop() {
                    None => return next,
                    Some(attempt) => {
                        self.resume(&attempt, false);
                        next = attempt.nok;
                    }
                },
                State::Next(name) => {
                    let place = self.place();
                    let byte = self.byte_before(place, to);
                    if byte.is_none() && !end {
                        return next;
                    }
                    self.hand(place, byte);
                    next = M::call(self, name);
                }
                State::Retry(name) => next = M::call(self, name),
            }
        }
    }

    /// Goes on at a later place, over what isn't read; stays where that isn't after where reading is.
    fn move_to(&mut self, from: (usize, usize))
        requires from { IsCut (bytes_of self.old) from }
        ensures { OpensRange from self.old self.new }
    {
        let place = self.place();
        if is_before(place, from) {
            self.point = place_over(self.parse_state.bytes, place, from);
        }
    }

    /// Reads a range, from and up to an index and a column of a tab there.
    ///
    /// The state is the one that was answered last. Where the ranges of a text adjoin, each begins
    /// where the last one ended, or after what is skipped there, and what is read doesn't depend on
    /// where the text is cut. What stands before a range otherwise isn't read. A state that reads the
    /// byte at hand again is no state to begin a range with, and none is answered. Once memory was
    /// refused, an error is answered to any further range.
    pub fn push(&mut self, from: (usize, usize), to: (usize, usize), state: State) -> State
        requires from { IsCut (bytes_of self.old) from }
        requires to { IsCut (bytes_of self.old) to }
        requires moves_on { MovesOn state }
        requires valid { IsValidUnlessFailed M.seen (M.valid (read_with self.old)) self.old state }
        ensures valid { IsValidUnlessFailed M.seen (M.valid (read_with self.old)) self.new result }
        ensures reads { HasFailed self.new ⊎ HasPushedFrom M.seen (M.step (read_with self.old)) from to state self.old self.new result }
        ensures evaluated { HasFailed self.new ⊎ StaysReadingFrom M.seen M.step M.rank from to state self.old self.new result }
        ensures halts { HasFailed self.new ⊎ HaltsFrom M.seen M.step M.rank from to state self.old self.new result }
        ensures moves_on { MovesOn result }
        ensures reached { HasReached to self.new result }
        ensures end { self.new.end ≡ to }
        ensures parse_state { self.new.parse_state.now ≡ self.old.parse_state.now }
        ensures failed { HasFailed self.old → HasFailed self.new }
        ensures refused { HasFailed self.new → IsRefused result }
    {
        let next = if self.failed {
            State::out_of_memory()
        } else {
            self.move_to(from);
            self.read(to, false, state)
        };
        self.end = to;
        self.failed = matches!(next, State::Error(_));
        next
    }

    /// Reads on, up to an index and a column of a tab there, where the text ends.
    pub(crate) fn finish(&mut self, to: (usize, usize), state: State) -> State
        requires to { IsCut (bytes_of self.old) to }
        requires valid { IsValidUnlessRefused M.seen (M.valid (read_with self.old)) self.old state }
        ensures reads { IsRefused result ⊎ HasFlushed M.seen (text_to (source self.old) to) (M.step (read_with self.old)) state self.old self.new result }
        ensures halts { IsRefused result ⊎ HasHalted M.seen M.step M.rank to true (halt_of M.seen self.old state) self.old self.new result }
        ensures valid { IsRefused result ⊎ IsValidAlone M.seen (M.valid (read_with self.old)) self.new result }
        ensures parse_state { self.new.parse_state.now ≡ self.old.parse_state.now }
        ensures total { IsRefused state ⊎ HasOutcome (text_to (source self.old) to) (M.step (read_with self.old)) (view_config M.seen self.old)
            self.old.attempts.items state }
        ensures whole { IsWholeUnlessRefused self.new result }
        ensures failed { IsRefused result → HasFailed self.new }
        ensures refused { HasFailed self.new → IsRefused result }
    {
        let last = self.read(to, true, state);
        self.failed = matches!(last, State::Error(_));
        last
    }

    /// Reads a text at once. After out of memory it returns an error.
    pub fn read_at_once(&mut self, state: State) -> State
        requires fresh { NothingWaits self.old }
        requires valid { IsValidAlone M.seen (M.valid (read_with self.old)) self.old state }
        ensures reads { IsRefused result ⊎ ReadWhole M.seen (source self.old) (M.step (read_with self.old)) state self.old self.new result }
        ensures total { HasRun (text_to (source self.old) (length (bytes_of self.old), 0)) (M.step (read_with self.old)) (view_config M.seen self.old) state }
        ensures whole { IsWholeUnlessRefused self.new result }
        ensures stays { HasFailed self.old → HasFailed self.new }
        ensures failed { IsRefused result → HasFailed self.new }
        ensures refused { HasFailed self.new → IsRefused result }
    {
        if self.failed {
            return State::out_of_memory();
        }
        let to = (self.parse_state.bytes.len(), 0);
        self.finish(to, state)
    }

    /// Reads a text in ranges, cut anywhere, inside of a tab or a line ending, too: each ends at one
    /// of these places, an index and a column of a tab there, and the last at the text's end. Once
    /// memory was refused, an error is answered.
    pub fn read_in_ranges(&mut self, cuts: &[(usize, usize)], state: State) -> State
        requires cuts { AreCuts (0, 0) cuts.now (length (bytes_of self.old)) }
        requires fresh { NothingWaits self.old }
        requires valid { IsValidAlone M.seen (M.valid (read_with self.old)) self.old state }
        ensures reads { IsRefused result ⊎ ReadWhole M.seen (source self.old) (M.step (read_with self.old)) state self.old self.new result }
        ensures whole { IsWholeUnlessRefused self.new result }
        ensures stays { HasFailed self.old → HasFailed self.new }
        ensures failed { IsRefused result → HasFailed self.new }
        ensures refused { HasFailed self.new → IsRefused result }
    {
        if self.failed {
            return State::out_of_memory();
        }
        let mut next = state;
        for cut in cuts {
            next = self.read(*cut, false, next);
            if let State::Error(_) = next {
                return next;
            }
        }
        let to = (self.parse_state.bytes.len(), 0);
        self.finish(to, next)
    }
}

impl<'a, M: Machine<T>, T: Tables, A: Allocator + Clone> Tokenizer<'a, M, T, A> {
    ghost use Rattle.std.specs.Prelude.{◌≡◌, ◌≤◌, ◌<◌, [], length, ◌⊎◌};
    ghost use Rattle.markdown_engine.specs.Machine.{HasFailed, IsRefused, IsValidAlone, IsWholeUnlessRefused, NothingWaits, ReadWhole};
    ghost use Rattle.markdown_engine.specs.Machine.{bytes_of, read_with, source};
    ghost use Rattle.markdown_engine.specs.VirtualText.{line_start, with_skip};

    /// Reads a text in two ranges, the second of which is read from a later place of its line: what
    /// is read is the text that skips the line's start. Once memory was refused, an error is
    /// answered.
    pub fn read_in_lines(&mut self, cut: usize, point: Point, state: State) -> State
        requires cut { cut < length (bytes_of self.old) }
        requires within { point.index ≤ length (bytes_of self.old) }
        requires line { cut ≤ line_start self.old.parse_state.now.bytes.now point.index }
        requires fresh { NothingWaits self.old }
        requires valid { IsValidAlone M.seen (M.valid (read_with self.old)) self.old state }
        ensures reads { IsRefused result ⊎ ReadWhole M.seen (with_skip (source self.old) point) (M.step (read_with self.old)) state self.old self.new result }
        ensures whole { IsWholeUnlessRefused self.new result }
        ensures stays { HasFailed self.old → HasFailed self.new }
        ensures failed { IsRefused result → HasFailed self.new }
        ensures refused { HasFailed self.new → IsRefused result }
    {
        if self.failed {
            return State::out_of_memory();
        }
        let first = self.read((cut, 0), false, state);
        if let State::Error(_) = first {
            return first;
        }
        if self.define_skip(point).is_err() {
            return State::out_of_memory();
        }
        let to = (self.parse_state.bytes.len(), 0);
        self.finish(to, first)
    }
}
