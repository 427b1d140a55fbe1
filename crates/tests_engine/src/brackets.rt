//! A machine of balanced brackets: items, each a group in brackets or another byte.
//!
//! Where a group doesn't end, all from its bracket on is data. A group is attempted, and in it its
//! items are, so that its end is looked for after them.
ghost use Rattle.std.specs.Prelude.{◌≡◌, IfErr, IfOk, length};
ghost use Rattle.std.specs.Option.{option_copied};
ghost use Rattle.markdown_options.specs.Messages.{IsOutOfMemory};
ghost use Rattle.markdown_engine.specs.Machine.{Answers, AreCuts, config};
ghost use Rattle.engine_events.specs.declared.event.Name.TheVariants as names;
ghost use Rattle.markdown_engine.specs.Order.{IsInnermost, IsBalanced, AreInOrder};
ghost use Rattle.tests_engine.specs.Brackets.{IsBracketsReading, items, rest, group, close, part, brackets_step};
ghost use Rattle.tests_engine.specs.Brackets.{brackets_valid, brackets_rank};
ghost use Rattle.markdown_engine.specs.Context.{context};
ghost use Rattle.markdown_engine.specs.Resolving.{HoldsUnresolved, resolves_nothing, settles_whole};
ghost use Rattle.tests_engine.specs.BracketsLaws.{brackets_lawful, brackets_resolves};
ghost use Rattle.tests_engine.specs.declared.brackets.Brackets.{Brackets};
ghost use Rattle.tests_engine.specs.Readings.{ReadsChains};

use crate::readings::{read_at_once, read_chains};
use markdown_engine::event::{Content, Event, Name as EventName};
use markdown_engine::place::START;
use markdown_engine::state::{Inline, Name, State};
use markdown_engine::subresult::Subresult;
use markdown_engine::tokenizer::{Machine, Tokenizer};
use markdown_engine::{Message, ParseState, resolve};
use markdown_options::Tables;
use std::alloc::Allocator;

const BEGINNING: Name = Name::Inline(Inline::TextStart);

const ITEMS: State = State::Next(BEGINNING);

const GROUP: State = State::Retry(Name::Inline(Inline::LabelStart));

const CLOSE: State = State::Next(Name::Inline(Inline::LabelInside));

const REST: State = State::Next(Name::Inline(Inline::DataInside));

/// Reads items: at a bracket attempts a group.
#[tactic(auto, unfolding(crate::specs::Brackets::items))]
fn items<M, T, A: Allocator>(tokenizer: &mut Tokenizer<'_, M, T, A>) -> State
    ensures { Answers (items tokenizer.old.current (config tokenizer.old)) tokenizer.old tokenizer.new result }
{
    match tokenizer.current {
        None | Some(b')') => State::Ok,
        Some(b'(') => match tokenizer.attempt(ITEMS, REST) {
            Ok(()) => GROUP,
            Err(_) => State::out_of_memory(),
        },
        Some(_) => {
            tokenizer.consume();
            ITEMS
        }
    }
}

/// Reads data, to the end.
#[tactic(auto, unfolding(crate::specs::Brackets::rest))]
fn rest<M, T, A: Allocator>(tokenizer: &mut Tokenizer<'_, M, T, A>) -> State
    ensures { Answers (rest tokenizer.old.current (config tokenizer.old)) tokenizer.old tokenizer.new result }
{
    if tokenizer.current.is_none() {
        return State::Ok;
    }
    tokenizer.consume();
    REST
}

/// Reads a group's bracket, and attempts its items.
#[tactic(auto, unfolding(crate::specs::Brackets::group))]
fn group<M, T, A: Allocator>(tokenizer: &mut Tokenizer<'_, M, T, A>) -> State
    ensures { Answers (group tokenizer.old.current (config tokenizer.old)) tokenizer.old tokenizer.new result }
{
    if tokenizer.current != Some(b'(') {
        return State::Nok;
    }
    if tokenizer.enter(EventName::Label).is_err() {
        return State::out_of_memory();
    }
    tokenizer.consume();
    match tokenizer.attempt(CLOSE, State::Nok) {
        Ok(()) => ITEMS,
        Err(_) => State::out_of_memory(),
    }
}

/// Reads a group's end.
#[tactic(auto, unfolding(crate::specs::Brackets::close))]
fn close<M, T, A: Allocator>(tokenizer: &mut Tokenizer<'_, M, T, A>) -> State
    requires { IsInnermost names.Label tokenizer.old.events.items }
    ensures { Answers (close tokenizer.old.current (config tokenizer.old)) tokenizer.old tokenizer.new result }
{
    if tokenizer.current != Some(b')') {
        return State::Nok;
    }
    tokenizer.consume();
    match tokenizer.exit(EventName::Label) {
        Ok(()) => State::Ok,
        Err(_) => State::out_of_memory(),
    }
}

/// Balanced brackets.
#[derive(Clone, Copy)]
pub struct Brackets;

impl<T: Tables> Machine<T> for Brackets {
    ghost Seen = { Brackets };

    ghost seen = { λ machine. machine };

    ghost step = { λ x. brackets_step };

    ghost valid = { λ x. HoldsUnresolved (brackets_valid (length x.bytes)) };

    ghost rank = { λ x. brackets_rank (length x.bytes) };

    ghost resolved = { λ x. resolves_nothing };

    ghost settled = { λ x. settles_whole };

    #[tactic(auto, unfolding(crate::specs::Brackets::brackets_step, crate::specs::Brackets::part))]
    fn call<'a, A: Allocator>(tokenizer: &mut Tokenizer<'a, Self, T, A>, name: Name) -> State {
        match name {
            Name::Inline(Inline::TextStart) => items(tokenizer),
            Name::Inline(Inline::LabelStart) => group(tokenizer),
            Name::Inline(Inline::LabelInside) => close(tokenizer),
            _ => rest(tokenizer),
        }
    }

    #[tactic(auto)]
    fn resolve<'a, A: Allocator + Clone>(
        tokenizer: &mut Tokenizer<'a, Self, T, A>,
        _name: resolve::Name,
    ) -> Result<Option<Subresult<A>>, Message> {
        Ok(None)
    }

    ghost lawful = { λ x. brackets_lawful (length x.bytes) };

    ghost resolving = { λ x. brackets_resolves (length x.bytes) };
}

/// The events of a text of brackets, read at once.
#[tactic(auto, unfolding(crate::specs::Brackets::brackets_valid, crate::specs::Brackets::part))]
pub fn read_whole<T: Tables, A: Allocator + Clone>(
    alloc: A,
    parse_state: &ParseState<'_, T, A>,
    machine: Brackets,
) -> Result<Vec<Event, A>, Message>
    ensures reads { IfOk result (λ events. IsBracketsReading parse_state.now.bytes.now machine events.items) }
    ensures balanced { IfOk result (λ events. IsBalanced events.items) }
    ensures order { IfOk result (λ events. AreInOrder events.items) }
    ensures memory { IfErr result IsOutOfMemory }
{
    read_at_once(alloc, parse_state, machine, BEGINNING)
}

/// The same, read in ranges: cut anywhere, inside of a tab or a line ending, too.
#[tactic(auto, unfolding(crate::specs::Brackets::brackets_valid, crate::specs::Brackets::part))]
pub fn read_in_ranges<T: Tables, A: Allocator + Clone>(
    alloc: A,
    parse_state: &ParseState<'_, T, A>,
    machine: Brackets,
    cuts: &[(usize, usize)],
) -> Result<Vec<Event, A>, Message>
    requires { AreCuts (0, 0) cuts.now (length parse_state.now.bytes.now) }
    ensures reads { IfOk result (λ events. IsBracketsReading parse_state.now.bytes.now machine events.items) }
    ensures balanced { IfOk result (λ events. IsBalanced events.items) }
    ensures order { IfOk result (λ events. AreInOrder events.items) }
    ensures memory { IfErr result IsOutOfMemory }
{
    let mut tokenizer = Tokenizer::new(alloc, START, parse_state, machine)?;
    match tokenizer.read_in_ranges(cuts, ITEMS) {
        State::Error(message) => Err(*message),
        _ => Ok(tokenizer.events),
    }
}

/// The events of a text of brackets, read at once and in ranges: they are the same.
pub fn read_both_ways<T: Tables, A: Allocator + Clone>(
    alloc: A,
    parse_state: &ParseState<'_, T, A>,
    machine: Brackets,
    cuts: &[(usize, usize)],
) -> Result<(Vec<Event, A>, Vec<Event, A>), Message>
    requires { AreCuts (0, 0) cuts.now (length parse_state.now.bytes.now) }
    ensures reads { IfOk result (λ both. IsBracketsReading parse_state.now.bytes.now machine both.0.items) }
    ensures same { IfOk result (λ both. both.0.items ≡ both.1.items) }
    ensures memory { IfErr result IsOutOfMemory }
{
    let whole = read_whole(alloc.clone()?, parse_state, machine)?;
    let parts = read_in_ranges(alloc, parse_state, machine, cuts)?;
    Ok((whole, parts))
}

/// Reads the groups of the chains that are asked for, and puts their events in place of the chunks.
///
/// Answers none, and leaves the events, exactly where they aren't such that the chains can be read.
pub fn read_groups<T: Tables, A: Allocator + Clone>(
    events: &mut Vec<Event, A>,
    parse_state: &ParseState<'_, T, A>,
    machine: Brackets,
    filter: Option<&Content>,
) -> Result<Option<Subresult<A>>, Message>
    ensures read { IfOk result (λ found. ReadsChains (λ x. brackets_step) (λ x. resolves_nothing) (context parse_state.now) machine
        (option_copied filter.entry) events.old.items events.new.items found) }
    ensures memory { IfErr result IsOutOfMemory }
{
    read_chains(events, parse_state, machine, filter)
}
