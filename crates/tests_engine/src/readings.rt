//! Reading by any lawful machine: a text, and the chains of a list of events.
ghost use Rattle.std.specs.Prelude.{IfErr, IfOk, []};
ghost use Rattle.std.specs.Option.{option_copied};
ghost use Rattle.markdown_options.specs.Messages.{IsOutOfMemory};
ghost use Rattle.engine_states.specs.declared.state.State.TheVariants as states;
ghost use Rattle.markdown_engine.specs.Chains.{MayBegin, chains};
ghost use Rattle.markdown_engine.specs.Context.{context};
ghost use Rattle.markdown_engine.specs.Machine.{fresh_config};
ghost use Rattle.markdown_engine.specs.Order.{AreInOrder, IsBalanced, text_start};
ghost use Rattle.tests_engine.specs.Readings.{IsReading, ReadsChains};

use markdown_engine::event::{Content, Event};
use markdown_engine::place::START;
use markdown_engine::state::{Name, State};
use markdown_engine::subresult::Subresult;
use markdown_engine::tokenizer::{Machine, Tokenizer};
use markdown_engine::{Message, ParseState, are_apart, are_places, subtokenize};
use markdown_options::Tables;
use std::alloc::Allocator;

/// The events of a text, read at once from a state on.
pub fn read_at_once<M: Machine<T> + Drop, T: Tables, A: Allocator + Clone>(
    alloc: A,
    parse_state: &ParseState<'_, T, A>,
    machine: M,
    first: Name,
) -> Result<Vec<Event, A>, Message>
    requires begins { M.valid (context parse_state.now) (fresh_config text_start (M.seen machine)) [] (states.Next first) }
    ensures reads { IfOk result (λ events. IsReading (M.step (context parse_state.now)) first parse_state.now.bytes.now (M.seen machine) events.items) }
    ensures balanced { IfOk result (λ events. IsBalanced events.items) }
    ensures order { IfOk result (λ events. AreInOrder events.items) }
    ensures memory { IfErr result IsOutOfMemory }
{
    let mut tokenizer = Tokenizer::new(alloc, START, parse_state, machine)?;
    match tokenizer.read_at_once(State::Next(first)) {
        State::Error(message) => Err(*message),
        _ => Ok(tokenizer.events),
    }
}

/// Reads the chains that are asked for, and puts their events in place of the chunks.
///
/// Answers none, and leaves the events, exactly where they aren't such that the chains can be read.
pub fn read_chains<M: Machine<T> + Copy, T: Tables, A: Allocator + Clone>(
    events: &mut Vec<Event, A>,
    parse_state: &ParseState<'_, T, A>,
    machine: M,
    filter: Option<&Content>,
) -> Result<Option<Subresult<A>>, Message>
    requires begins { MayBegin (M.valid (context parse_state.now)) (M.seen machine) events.old.items (chains (option_copied filter) events.old.items) }
    ensures read { IfOk result (λ found. ReadsChains M.step M.resolved (context parse_state.now) (M.seen machine)
        (option_copied filter.entry) events.old.items events.new.items found) }
    ensures memory { IfErr result IsOutOfMemory }
{
    let alloc = events.allocator().clone()?;
    if !are_places(parse_state.bytes, events) || !are_apart(&alloc, events, filter)? {
        return Ok(None);
    }
    Ok(Some(subtokenize(events, parse_state, machine, filter)?))
}
