//! A machine that puts an event round each byte.
ghost use Rattle.std.specs.Prelude.{IfErr, IfOk, length};
ghost use Rattle.std.specs.Option.{option_copied};
ghost use Rattle.markdown_options.specs.Messages.{IsOutOfMemory};
ghost use Rattle.markdown_engine.specs.Context.{context};
ghost use Rattle.markdown_engine.specs.Resolving.{HoldsUnresolved, resolves_nothing, settles_whole};
ghost use Rattle.tests_engine.specs.EachByte.{each_rank};
ghost use Rattle.tests_engine.specs.Letters.{letter_step, reads_letters};
ghost use Rattle.tests_engine.specs.LettersLaws.{letter_lawful, letter_resolves};
ghost use Rattle.tests_engine.specs.declared.letters.Letters.{Letters};
ghost use Rattle.tests_engine.specs.Readings.{ReadsChains};

use crate::readings::read_chains;
use markdown_engine::event::{Content, Event, Name as EventName};
use markdown_engine::state::{Name, State};
use markdown_engine::subresult::Subresult;
use markdown_engine::tokenizer::{Machine, Tokenizer};
use markdown_engine::{Message, ParseState, resolve};
use markdown_options::Tables;
use std::alloc::Allocator;

/// Puts an event round each byte.
#[derive(Clone, Copy)]
pub struct Letters;

impl<T: Tables> Machine<T> for Letters {
    ghost Seen = { Letters };

    ghost seen = { λ machine. machine };

    ghost step = { λ x. letter_step };

    ghost valid = { λ x. HoldsUnresolved reads_letters };

    ghost rank = { λ x. each_rank (length x.bytes) };

    ghost resolved = { λ x. resolves_nothing };

    ghost settled = { λ x. settles_whole };

    #[tactic(auto, unfolding(crate::specs::Letters::letter_step))]
    fn call<'a, A: Allocator>(tokenizer: &mut Tokenizer<'a, Self, T, A>, name: Name) -> State {
        if tokenizer.current.is_none() {
            return State::Ok;
        }
        if tokenizer.enter(EventName::Data).is_err() {
            return State::out_of_memory();
        }
        tokenizer.consume();
        if tokenizer.exit(EventName::Data).is_err() {
            return State::out_of_memory();
        }
        State::Next(name)
    }

    #[tactic(auto)]
    fn resolve<'a, A: Allocator + Clone>(
        tokenizer: &mut Tokenizer<'a, Self, T, A>,
        _name: resolve::Name,
    ) -> Result<Option<Subresult<A>>, Message> {
        Ok(None)
    }

    ghost lawful = { λ x. letter_lawful (length x.bytes) };

    ghost resolving = { λ x. letter_resolves (length x.bytes) };
}

/// Puts an event round each byte of the chains that are asked for, in place of their chunks.
///
/// Answers none, and leaves the events, exactly where they aren't such that the chains can be read.
pub fn read_letters<T: Tables, A: Allocator + Clone>(
    events: &mut Vec<Event, A>,
    parse_state: &ParseState<'_, T, A>,
    machine: Letters,
    filter: Option<&Content>,
) -> Result<Option<Subresult<A>>, Message>
    ensures read { IfOk result (λ found. ReadsChains (λ x. letter_step) (λ x. resolves_nothing) (context parse_state.now) machine
        (option_copied filter.entry) events.old.items events.new.items found) }
    ensures memory { IfErr result IsOutOfMemory }
{
    read_chains(events, parse_state, machine, filter)
}
