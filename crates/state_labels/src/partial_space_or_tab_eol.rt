//! Spaces, tabs and at most one line ending.
//!
//! ```text
//! space_or_tab_eol ::= 1*space_or_tab | [space_or_tab] line_ending [space_or_tab]
//! ```
ghost use Rattle.engine_programs.specs.Stacks.{Does};
ghost use Rattle.state_labels.specs.SpaceOrTabEol.{space_or_tab_eol_start, space_or_tab_eol_after_first, space_or_tab_eol_at_eol};
ghost use Rattle.state_labels.specs.SpaceOrTabEol.{space_or_tab_eol_after_eol, space_or_tab_eol_after_more};
ghost use Rattle.state_labels.specs.SpaceOrTabEol.{over_eol};

use crate::chunk::around_part;
use engine_programs::steps::attempt_to;
use markdown_engine::event::Name as EventName;
use markdown_engine::state::{Inline, State};
use markdown_engine::tokenizer::Tokenizer;
use state_table::{next, retry};
use std::alloc::Allocator;

/// Over a line ending.
fn over_eol<M, T, A: Allocator>(tokenizer: &mut Tokenizer<'_, M, T, A>) -> State
    ensures { Does over_eol tokenizer.old tokenizer.new result }
{
    match around_part(tokenizer, EventName::LineEnding) {
        Ok(()) => next(Inline::SpaceOrTabEolAfterEol),
        Err(_) => State::out_of_memory(),
    }
}

/// At the first byte.
pub fn start<M, T, A: Allocator>(tokenizer: &mut Tokenizer<'_, M, T, A>) -> State
    ensures { Does space_or_tab_eol_start tokenizer.old tokenizer.new result }
{
    match tokenizer.current {
        Some(b'\t' | b' ') => {
            tokenizer.tokenize_state.size_c = usize::MAX;
            attempt_to(
                tokenizer,
                next(Inline::SpaceOrTabEolAfterFirst),
                next(Inline::SpaceOrTabEolAtEol),
                retry(Inline::SpaceOrTabStart),
            )
        },
        _ => retry(Inline::SpaceOrTabEolAtEol),
    }
}

/// After spaces and tabs.
pub fn after_first<M, T, A: Allocator>(tokenizer: &mut Tokenizer<'_, M, T, A>) -> State
    ensures { Does space_or_tab_eol_after_first tokenizer.old tokenizer.new result }
{
    if tokenizer.current != Some(b'\n') {
        return State::Ok;
    }
    over_eol(tokenizer)
}

/// Where there are none.
pub fn at_eol<M, T, A: Allocator>(tokenizer: &mut Tokenizer<'_, M, T, A>) -> State
    ensures { Does space_or_tab_eol_at_eol tokenizer.old tokenizer.new result }
{
    if tokenizer.current != Some(b'\n') {
        return State::Nok;
    }
    over_eol(tokenizer)
}

/// After the line ending.
pub fn after_eol<M, T, A: Allocator>(tokenizer: &mut Tokenizer<'_, M, T, A>) -> State
    ensures { Does space_or_tab_eol_after_eol tokenizer.old tokenizer.new result }
{
    match tokenizer.current {
        Some(b'\t' | b' ') => {
            tokenizer.tokenize_state.size_c = usize::MAX;
            attempt_to(
                tokenizer,
                next(Inline::SpaceOrTabEolAfterMore),
                next(Inline::SpaceOrTabEolAfterMore),
                retry(Inline::SpaceOrTabStart),
            )
        },
        _ => retry(Inline::SpaceOrTabEolAfterMore),
    }
}

/// After it all.
pub fn after_more<M, T, A: Allocator>(tokenizer: &mut Tokenizer<'_, M, T, A>) -> State
    ensures { Does space_or_tab_eol_after_more tokenizer.old tokenizer.new result }
{
    State::Ok
}
