//! The last calls of block states: each says which block state goes on.
ghost use Rattle.std.specs.Prelude.{[], ◌∷◌, Some};
ghost use Rattle.engine_events.specs.declared.event.Name.TheVariants as names;
ghost use Rattle.engine_states.specs.declared.state.State.TheVariants.{Ok};
ghost use Rattle.markdown_engine.specs.Order.{IsInnermost};
ghost use Rattle.engine_programs.specs.Bodies.{Answer, Consume, Enter, EnterLink, Exit, FixedName, around};
ghost use Rattle.engine_programs.specs.Stacks.{Does, IsOpen};
ghost use Rattle.state_table.specs.BlockWords.{around_if, consume_if, free, next, no_limit, over_white, retry};

use crate::block::{next, retry};
use crate::white::over_white;
use engine_programs::around::leave;
use engine_programs::steps;
use markdown_engine::event::{Link, Name};
use markdown_engine::state::{Block, State};
use markdown_engine::tokenizer::Tokenizer;
use std::alloc::Allocator;

/// Moves over the byte.
pub fn consume_to<M, T, A: Allocator>(tokenizer: &mut Tokenizer<'_, M, T, A>, state: Block) -> State
    ensures { Does (Consume (Answer (next state))) tokenizer.old tokenizer.new result }
{
    steps::consume_to(tokenizer, next(state))
}

/// Moves over the byte if it is this one. Otherwise goes on with the other state from here.
pub fn consume_if<M, T, A: Allocator>(
    tokenizer: &mut Tokenizer<'_, M, T, A>,
    byte: u8,
    state: Block,
    other: State,
) -> State
    ensures { Does (consume_if byte state other) tokenizer.old tokenizer.new result }
{
    if tokenizer.current != Some(byte) {
        return other;
    }
    consume_to(tokenizer, state)
}

/// Adds that something begins here, and moves over its first byte.
pub fn enter_to<M, T, A: Allocator>(
    tokenizer: &mut Tokenizer<'_, M, T, A>,
    name: Name,
    state: Block,
) -> State
    ensures { Does (Enter (FixedName name) (Consume (Answer (next state)))) tokenizer.old tokenizer.new result }
{
    steps::enter_to(tokenizer, name, next(state))
}

/// Adds that something begins here. The state reads the same byte.
pub fn enter_before<M, T, A: Allocator>(
    tokenizer: &mut Tokenizer<'_, M, T, A>,
    name: Name,
    state: Block,
) -> State
    ensures { Does (Enter (FixedName name) (Answer (retry state))) tokenizer.old tokenizer.new result }
{
    if tokenizer.enter(name).is_err() {
        return State::out_of_memory();
    }
    retry(state)
}

/// Adds that something begins here and something else in it, and moves over its first byte.
pub fn enter_both_to<M, T, A: Allocator>(
    tokenizer: &mut Tokenizer<'_, M, T, A>,
    outer: Name,
    inner: Name,
    state: Block,
) -> State
    ensures { Does (Enter (FixedName outer) (Enter (FixedName inner) (Consume (Answer (next state))))) tokenizer.old tokenizer.new result }
{
    if tokenizer.enter(outer).is_err() {
        return State::out_of_memory();
    }
    enter_to(tokenizer, inner, state)
}

/// Adds that a chunk begins here that is read later, and moves over its first byte.
pub fn enter_link_to<M, T, A: Allocator>(
    tokenizer: &mut Tokenizer<'_, M, T, A>,
    name: Name,
    link: Link,
    state: Block,
) -> State
    ensures { Does (EnterLink (FixedName name) (λ c. Some link) (Consume (Answer (next state)))) tokenizer.old tokenizer.new result }
{
    if tokenizer.enter_link(name, link).is_err() {
        return State::out_of_memory();
    }
    consume_to(tokenizer, state)
}

/// Adds that something begins here and in it a chunk that is read later, and moves over its first byte.
pub fn enter_data_to<M, T, A: Allocator>(
    tokenizer: &mut Tokenizer<'_, M, T, A>,
    name: Name,
    link: Link,
    state: Block,
) -> State
    ensures { Does (Enter (FixedName name) (EnterLink (FixedName names.Data) (λ c. Some link) (Consume (Answer (next state))))) tokenizer.old tokenizer.new result }
{
    if tokenizer.enter(name).is_err() {
        return State::out_of_memory();
    }
    enter_link_to(tokenizer, Name::Data, link, state)
}

/// Adds an event round the byte.
pub fn around_to<M, T, A: Allocator>(
    tokenizer: &mut Tokenizer<'_, M, T, A>,
    name: Name,
    state: Block,
) -> State
    ensures { Does (around (FixedName name) (Answer (next state))) tokenizer.old tokenizer.new result }
{
    steps::around_to(tokenizer, name, next(state))
}

/// Adds an event round the byte if it is this one. Otherwise goes on with the other state from here.
pub fn around_if<M, T, A: Allocator>(
    tokenizer: &mut Tokenizer<'_, M, T, A>,
    byte: u8,
    name: Name,
    state: Block,
    other: State,
) -> State
    ensures { Does (around_if byte name state other) tokenizer.old tokenizer.new result }
{
    if tokenizer.current != Some(byte) {
        return other;
    }
    around_to(tokenizer, name, state)
}

/// Adds that the innermost event ends here. The state reads the same byte.
pub fn exit_before<M, T, A: Allocator>(
    tokenizer: &mut Tokenizer<'_, M, T, A>,
    name: Name,
    state: Block,
) -> State
    requires { IsInnermost name tokenizer.old.events.items }
    ensures { Does (Exit (FixedName name) (Answer (retry state))) tokenizer.old tokenizer.new result }
{
    steps::exit_to(tokenizer, name, retry(state))
}

/// Adds that the two innermost events end here. The state reads the same byte.
pub fn exit_both_before<M, T, A: Allocator>(
    tokenizer: &mut Tokenizer<'_, M, T, A>,
    inner: Name,
    outer: Name,
    state: Block,
) -> State
    requires { IsOpen (FixedName inner ∷ FixedName outer ∷ []) tokenizer.old }
    ensures { Does (Exit (FixedName inner) (Exit (FixedName outer) (Answer (retry state)))) tokenizer.old tokenizer.new result }
{
    if leave(tokenizer, inner).is_err() {
        return State::out_of_memory();
    }
    exit_before(tokenizer, outer, state)
}

/// Adds that the innermost event, a block, ends here. What comes next interrupts no paragraph.
pub fn exit_block<M, T, A: Allocator>(tokenizer: &mut Tokenizer<'_, M, T, A>, name: Name) -> State
    requires { IsInnermost name tokenizer.old.events.items }
    ensures { Does (Exit (FixedName name) (free (Answer Ok))) tokenizer.old tokenizer.new result }
{
    if leave(tokenizer, name).is_err() {
        return State::out_of_memory();
    }
    tokenizer.interrupt = false;
    State::Ok
}

/// Adds that the two innermost events end here, and moves over spaces and tabs, if there are any.
pub fn exit_both_over_white<M, T, A: Allocator>(
    tokenizer: &mut Tokenizer<'_, M, T, A>,
    inner: Name,
    outer: Name,
    state: Block,
) -> State
    requires { IsOpen (FixedName inner ∷ FixedName outer ∷ []) tokenizer.old }
    ensures { Does (Exit (FixedName inner) (Exit (FixedName outer) (over_white no_limit state))) tokenizer.old tokenizer.new result }
{
    if leave(tokenizer, inner).is_err() {
        return State::out_of_memory();
    }
    exit_over_white(tokenizer, outer, state)
}

/// Adds that the innermost event ends here, and moves over spaces and tabs, if there are any.
pub fn exit_over_white<M, T, A: Allocator>(
    tokenizer: &mut Tokenizer<'_, M, T, A>,
    name: Name,
    state: Block,
) -> State
    requires { IsInnermost name tokenizer.old.events.items }
    ensures { Does (Exit (FixedName name) (over_white no_limit state)) tokenizer.old tokenizer.new result }
{
    if leave(tokenizer, name).is_err() {
        return State::out_of_memory();
    }
    over_white(tokenizer, usize::MAX, state)
}
