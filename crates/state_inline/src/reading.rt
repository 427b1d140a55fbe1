//! The events of a text, or of a string.
ghost use Rattle.std.specs.Prelude.{IfOk, IfErr, length};
ghost use Rattle.markdown_options.specs.Messages.{IsOutOfMemory};
ghost use Rattle.markdown_engine.specs.Context.{context};
ghost use Rattle.markdown_engine.specs.Machine.{AreCuts};
ghost use Rattle.markdown_engine.specs.Order.{AreInOrder, IsBalanced};
ghost use Rattle.state_inline.specs.Reading.{AreResolvedStringEvents, AreResolvedTextEvents, AreStringEvents, AreTextEvents};

use crate::inlines::Inlines;
use markdown_engine::event::Event;
use markdown_engine::place::START;
use markdown_engine::state::{Inline, Name, State};
use markdown_engine::tokenizer::Tokenizer;
use markdown_engine::{Message, ParseState};
use markdown_options::Tables;
use std::alloc::Allocator;

/// The events of a text; `starts` says at which indices contents begin that may begin with a check.
#[tactic(auto, using(crate::specs::InlineLaws::text_begins))]
pub fn read_text<T: Tables, A: Allocator + Clone>(
    alloc: A,
    parse_state: &ParseState<'_, T, A>,
    starts: &[bool],
) -> Result<Vec<Event, A>, Message>
    ensures reads { IfOk result (λ events. AreTextEvents T.reference_of T.punctuation_of (context parse_state.now) starts.entry events.items) }
    ensures balanced { IfOk result (λ events. IsBalanced events.items) }
    ensures order { IfOk result (λ events. AreInOrder events.items) }
    ensures memory { IfErr result IsOutOfMemory }
{
    let machine = Inlines { starts };
    let mut tokenizer = Tokenizer::new(alloc, START, parse_state, machine)?;
    match tokenizer.read_at_once(State::Next(Name::Inline(Inline::TextStart))) {
        State::Error(message) => Err(*message),
        _ => Ok(tokenizer.events),
    }
}

/// The events of a text that comes in ranges, each of which ends at one of these places, an index
/// and a column of a tab there, and the last at the text's end: the same as of the text at once.
#[tactic(auto, using(crate::specs::InlineLaws::text_begins))]
pub fn read_text_in_ranges<T: Tables, A: Allocator + Clone>(
    alloc: A,
    parse_state: &ParseState<'_, T, A>,
    starts: &[bool],
    cuts: &[(usize, usize)],
) -> Result<Vec<Event, A>, Message>
    requires cuts { AreCuts (0, 0) cuts.now (length parse_state.now.bytes.now) }
    ensures reads { IfOk result (λ events. AreTextEvents T.reference_of T.punctuation_of (context parse_state.now) starts.entry events.items) }
    ensures balanced { IfOk result (λ events. IsBalanced events.items) }
    ensures order { IfOk result (λ events. AreInOrder events.items) }
    ensures memory { IfErr result IsOutOfMemory }
{
    let machine = Inlines { starts };
    let mut tokenizer = Tokenizer::new(alloc, START, parse_state, machine)?;
    match tokenizer.read_in_ranges(cuts, State::Next(Name::Inline(Inline::TextStart))) {
        State::Error(message) => Err(*message),
        _ => Ok(tokenizer.events),
    }
}

/// The events of a text after its resolvers.
#[tactic(auto, using(crate::specs::InlineLaws::text_begins))]
pub fn resolved_text<T: Tables, A: Allocator + Clone>(
    alloc: A,
    parse_state: &ParseState<'_, T, A>,
    starts: &[bool],
) -> Result<Vec<Event, A>, Message>
    ensures reads { IfOk result (λ events. AreResolvedTextEvents T.reference_of T.punctuation_of (context parse_state.now) starts.entry events.items) }
    ensures balanced { IfOk result (λ events. IsBalanced events.items) }
    ensures order { IfOk result (λ events. AreInOrder events.items) }
    ensures memory { IfErr result IsOutOfMemory }
{
    let machine = Inlines { starts };
    let mut tokenizer = Tokenizer::new(alloc, START, parse_state, machine)?;
    tokenizer.read_and_resolve(State::Next(Name::Inline(Inline::TextStart)))?;
    Ok(tokenizer.events)
}

/// The events of a string.
#[tactic(auto, using(crate::specs::InlineLaws::string_begins))]
pub fn read_string<T: Tables, A: Allocator + Clone>(
    alloc: A,
    parse_state: &ParseState<'_, T, A>,
) -> Result<Vec<Event, A>, Message>
    ensures reads { IfOk result (λ events. AreStringEvents T.reference_of T.punctuation_of (context parse_state.now) events.items) }
    ensures balanced { IfOk result (λ events. IsBalanced events.items) }
    ensures order { IfOk result (λ events. AreInOrder events.items) }
    ensures memory { IfErr result IsOutOfMemory }
{
    let machine = Inlines { starts: &[] };
    let mut tokenizer = Tokenizer::new(alloc, START, parse_state, machine)?;
    match tokenizer.read_at_once(State::Next(Name::Inline(Inline::StringStart))) {
        State::Error(message) => Err(*message),
        _ => Ok(tokenizer.events),
    }
}

/// The events of a string after its resolvers.
#[tactic(auto, using(crate::specs::InlineLaws::string_begins))]
pub fn resolved_string<T: Tables, A: Allocator + Clone>(
    alloc: A,
    parse_state: &ParseState<'_, T, A>,
) -> Result<Vec<Event, A>, Message>
    ensures reads { IfOk result (λ events. AreResolvedStringEvents T.reference_of T.punctuation_of (context parse_state.now) events.items) }
    ensures balanced { IfOk result (λ events. IsBalanced events.items) }
    ensures order { IfOk result (λ events. AreInOrder events.items) }
    ensures memory { IfErr result IsOutOfMemory }
{
    let machine = Inlines { starts: &[] };
    let mut tokenizer = Tokenizer::new(alloc, START, parse_state, machine)?;
    tokenizer.read_and_resolve(State::Next(Name::Inline(Inline::StringStart)))?;
    Ok(tokenizer.events)
}
