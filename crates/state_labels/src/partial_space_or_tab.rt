//! Spaces and tabs.
//!
//! ```text
//! space_or_tab ::= 1*(' ' | '\t'), at most `size_c`
//! ```
//!
//! In a string, which `connect` tells, they are a part of its chunks.
ghost use Rattle.std.specs.Prelude.{[], ◌∷◌};
ghost use Rattle.engine_events.specs.declared.event.Name.TheVariants as names;
ghost use Rattle.engine_programs.specs.Bodies.{FixedName};
ghost use Rattle.engine_programs.specs.Stacks.{Does, IsOpen};
ghost use Rattle.state_labels.specs.SpaceOrTab.{space_or_tab_start, space_or_tab_inside, space_or_tab_after};

use crate::chunk::enter_part;
use engine_programs::steps::{consume_to, exit_to};
use markdown_engine::event::Name as EventName;
use markdown_engine::state::{Inline, State};
use markdown_engine::tokenizer::Tokenizer;
use state_table::{next, retry};
use std::alloc::Allocator;

/// At the first.
pub fn start<M, T, A: Allocator>(tokenizer: &mut Tokenizer<'_, M, T, A>) -> State
    ensures { Does space_or_tab_start tokenizer.old tokenizer.new result }
{
    let Some(byte) = tokenizer.current else {
        return State::Nok;
    };
    if tokenizer.tokenize_state.size_c > 0 && matches!(byte, b'\t' | b' ') {
        if enter_part(tokenizer, EventName::SpaceOrTab).is_err() {
            return State::out_of_memory();
        }
        tokenizer.tokenize_state.size_c = tokenizer.tokenize_state.size_c.saturating_sub(1);
        return consume_to(tokenizer, next(Inline::SpaceOrTabInside));
    }
    State::Nok
}

/// At the next.
pub fn inside<M, T, A: Allocator>(tokenizer: &mut Tokenizer<'_, M, T, A>) -> State
    requires { IsOpen (FixedName names.SpaceOrTab ∷ []) tokenizer.old }
    ensures { Does space_or_tab_inside tokenizer.old tokenizer.new result }
{
    if let Some(byte) = tokenizer.current {
        if tokenizer.tokenize_state.size_c > 0 && matches!(byte, b'\t' | b' ') {
            tokenizer.tokenize_state.size_c = tokenizer.tokenize_state.size_c.saturating_sub(1);
            return consume_to(tokenizer, next(Inline::SpaceOrTabInside));
        }
    }
    exit_to(
        tokenizer,
        EventName::SpaceOrTab,
        retry(Inline::SpaceOrTabAfter),
    )
}

/// After them.
pub fn after<M, T, A: Allocator>(tokenizer: &mut Tokenizer<'_, M, T, A>) -> State
    ensures { Does space_or_tab_after tokenizer.old tokenizer.new result }
{
    State::Ok
}
