//! The last calls of states: each says how reading goes on.
ghost use Rattle.markdown_engine.specs.Order.{IsInnermost};
ghost use Rattle.engine_programs.specs.Bodies.{Answer, Consume, Enter, Exit, FixedName, Tries, around};
ghost use Rattle.engine_programs.specs.Stacks.{Does};
ghost use Rattle.std.specs.Prelude.{true, false};

use crate::around;
use markdown_engine::event::Name;
use markdown_engine::state::State;
use markdown_engine::tokenizer::Tokenizer;
use std::alloc::Allocator;

/// Moves over the byte.
pub fn consume_to<M, T, A: Allocator>(tokenizer: &mut Tokenizer<'_, M, T, A>, state: State) -> State
    ensures { Does (Consume (Answer state)) tokenizer.old tokenizer.new result }
{
    tokenizer.consume();
    state
}

/// Adds that something begins here, and moves over its first byte.
pub fn enter_to<M, T, A: Allocator>(
    tokenizer: &mut Tokenizer<'_, M, T, A>,
    name: Name,
    state: State,
) -> State
    ensures { Does (Enter (FixedName name) (Consume (Answer state))) tokenizer.old tokenizer.new result }
{
    if tokenizer.enter(name).is_err() {
        return State::out_of_memory();
    }
    tokenizer.consume();
    state
}

/// Adds an event round the byte.
pub fn around_to<M, T, A: Allocator>(
    tokenizer: &mut Tokenizer<'_, M, T, A>,
    name: Name,
    state: State,
) -> State
    ensures { Does (around (FixedName name) (Answer state)) tokenizer.old tokenizer.new result }
{
    match around::around(tokenizer, name) {
        Ok(()) => state,
        Err(_) => State::out_of_memory(),
    }
}

/// Adds that the innermost event ends here.
pub fn exit_to<M, T, A: Allocator>(
    tokenizer: &mut Tokenizer<'_, M, T, A>,
    name: Name,
    state: State,
) -> State
    requires { IsInnermost name tokenizer.old.events.items }
    ensures { Does (Exit (FixedName name) (Answer state)) tokenizer.old tokenizer.new result }
{
    match tokenizer.exit(name) {
        Ok(()) => state,
        Err(_) => State::out_of_memory(),
    }
}

/// Tries what begins with a state, and goes on with one state if that goes well and with another
/// from here if it doesn't.
pub fn attempt_to<M, T, A: Allocator>(
    tokenizer: &mut Tokenizer<'_, M, T, A>,
    ok: State,
    nok: State,
    state: State,
) -> State
    ensures { Does (Tries false ok nok state) tokenizer.old tokenizer.new result }
{
    match tokenizer.attempt(ok, nok) {
        Ok(()) => state,
        Err(_) => State::out_of_memory(),
    }
}

/// Looks ahead at what begins with a state, and goes on from here with one state or the other.
pub fn check_to<M, T, A: Allocator>(
    tokenizer: &mut Tokenizer<'_, M, T, A>,
    ok: State,
    nok: State,
    state: State,
) -> State
    ensures { Does (Tries true ok nok state) tokenizer.old tokenizer.new result }
{
    match tokenizer.check(ok, nok) {
        Ok(()) => state,
        Err(_) => State::out_of_memory(),
    }
}
