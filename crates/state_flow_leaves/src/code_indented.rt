//! Indented code (CommonMark 4.4).
//!
//! ```text
//! code_indented ::= 4(space) line *( *blank_line 4(space) line)
//! ```
//!
//! Blank lines at the end are no part of it, nor are lines of other containers.
ghost use Rattle.std.specs.Prelude.{◌≡◌, [], ◌∷◌};
ghost use Rattle.engine_events.specs.declared.event.Name.TheVariants as names;
ghost use Rattle.engine_programs.specs.Bodies.{FixedName};
ghost use Rattle.engine_programs.specs.Stacks.{Does, IsOpen};
ghost use Rattle.markdown_engine.specs.Machine.{config, constructs_of};
ghost use Rattle.state_flow_leaves.specs.CodeIndented.{begins_foreign_line, code_indented_start, code_indented_at_break, code_indented_inside};
ghost use Rattle.state_flow_leaves.specs.CodeIndented.{code_indented_after, code_indented_further_start, code_indented_further_begin};
ghost use Rattle.state_flow_leaves.specs.CodeIndented.{code_indented_further_after};

use engine_programs::steps::{self, attempt_to};
use markdown_engine::event::Name as EventName;
use markdown_engine::state::{Block, State};
use markdown_engine::tokenizer::Tokenizer;
use markdown_options::constants::CODE_INDENT;
use state_table::block::{next, retry};
use state_table::steps::{around_to, consume_to, enter_to, exit_before, exit_block};
use state_table::white::white_to;
use std::alloc::Allocator;

/// Whether this is the start of a line that isn't one of this block: where a container begins or
/// doesn't go on.
fn begins_foreign_line<M, T, A: Allocator>(tokenizer: &Tokenizer<'_, M, T, A>) -> bool
    ensures { result ≡ begins_foreign_line (config tokenizer.now) }
{
    tokenizer.previous == Some(b'\n') && (tokenizer.lazy || tokenizer.pierce)
}

/// At the start of a line.
pub fn start<M, T, A: Allocator>(tokenizer: &mut Tokenizer<'_, M, T, A>) -> State
    ensures { Does (code_indented_start (constructs_of tokenizer.old)) tokenizer.old tokenizer.new result }
{
    if !tokenizer.parse_state.options.constructs.code_indented {
        return State::Nok;
    }
    if tokenizer.interrupt {
        return State::Nok;
    }
    match tokenizer.current {
        Some(b'\t' | b' ') => {
            if tokenizer.enter(EventName::CodeIndented).is_err() {
                return State::out_of_memory();
            }
            white_to(tokenizer, CODE_INDENT, Block::CodeIndentedAtBreak)
        },
        _ => State::Nok,
    }
}

/// Before or after a chunk.
pub fn at_break<M, T, A: Allocator>(tokenizer: &mut Tokenizer<'_, M, T, A>) -> State
    ensures { Does code_indented_at_break tokenizer.old tokenizer.new result }
{
    match tokenizer.current {
        None => retry(Block::CodeIndentedAfter),
        Some(b'\n') => attempt_to(
            tokenizer,
            next(Block::CodeIndentedInside),
            next(Block::CodeIndentedAfter),
            retry(Block::CodeIndentedFurtherStart),
        ),
        Some(_) => {
            if tokenizer.tokenize_state.size_c != 0 {
                return State::Nok;
            }
            enter_to(
                tokenizer,
                EventName::CodeFlowChunk,
                Block::CodeIndentedInside,
            )
        },
    }
}

/// In a chunk.
pub fn inside<M, T, A: Allocator>(tokenizer: &mut Tokenizer<'_, M, T, A>) -> State
    requires { IsOpen (FixedName names.CodeFlowChunk ∷ FixedName names.CodeIndented ∷ []) tokenizer.old }
    ensures { Does code_indented_inside tokenizer.old tokenizer.new result }
{
    match tokenizer.current {
        None | Some(b'\n') => exit_before(
            tokenizer,
            EventName::CodeFlowChunk,
            Block::CodeIndentedAtBreak,
        ),
        Some(_) => consume_to(tokenizer, Block::CodeIndentedInside),
    }
}

/// At the end.
pub fn after<M, T, A: Allocator>(tokenizer: &mut Tokenizer<'_, M, T, A>) -> State
    requires { IsOpen (FixedName names.CodeIndented ∷ []) tokenizer.old }
    ensures { Does code_indented_after tokenizer.old tokenizer.new result }
{
    exit_block(tokenizer, EventName::CodeIndented)
}

/// At a line ending, or at the start of a line.
pub fn further_start<M, T, A: Allocator>(tokenizer: &mut Tokenizer<'_, M, T, A>) -> State
    ensures { Does code_indented_further_start tokenizer.old tokenizer.new result }
{
    if begins_foreign_line(tokenizer) {
        return State::Nok;
    }
    match tokenizer.current {
        Some(b'\n') => around_to(
            tokenizer,
            EventName::LineEnding,
            Block::CodeIndentedFurtherStart,
        ),
        Some(b'\t' | b' ') => white_to(tokenizer, CODE_INDENT, Block::CodeIndentedFurtherBegin),
        _ => State::Nok,
    }
}

/// After an indent.
pub fn further_begin<M, T, A: Allocator>(tokenizer: &mut Tokenizer<'_, M, T, A>) -> State
    ensures { Does code_indented_further_begin tokenizer.old tokenizer.new result }
{
    match tokenizer.current {
        None => State::Nok,
        Some(b'\n') => retry(Block::CodeIndentedFurtherStart),
        Some(_) => {
            if tokenizer.tokenize_state.size_c != 0 {
                return State::Nok;
            }
            let state = match tokenizer.current {
                Some(b'\t' | b' ') => next(Block::CodeIndentedFurtherAfter),
                _ => State::Ok,
            };
            steps::enter_to(tokenizer, EventName::CodeFlowChunk, state)
        },
    }
}

/// In a chunk that may be blank.
pub fn further_after<M, T, A: Allocator>(tokenizer: &mut Tokenizer<'_, M, T, A>) -> State
    requires { IsOpen (FixedName names.CodeFlowChunk ∷ []) tokenizer.old }
    ensures { Does code_indented_further_after tokenizer.old tokenizer.new result }
{
    match tokenizer.current {
        None => State::Nok,
        Some(b'\t' | b' ') => consume_to(tokenizer, Block::CodeIndentedFurtherAfter),
        Some(b'\n') => exit_before(
            tokenizer,
            EventName::CodeFlowChunk,
            Block::CodeIndentedFurtherStart,
        ),
        Some(_) => State::Ok,
    }
}
