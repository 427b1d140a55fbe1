//! A line ending that a line of the same block follows.
//!
//! ```text
//! non_lazy_continuation ::= line_ending
//! ```
//!
//! It fails before a line where a container begins or doesn't go on. At the end of the text only
//! fences go on.
ghost use Rattle.std.specs.Prelude.{◌≡◌};
ghost use Rattle.engine_programs.specs.Stacks.{Does};
ghost use Rattle.markdown_engine.specs.Machine.{config};
ghost use Rattle.state_flow_leaves.specs.NonLazyContinuation.{is_in_html, non_lazy_continuation_start, non_lazy_continuation_after};

use markdown_engine::event::Name as EventName;
use markdown_engine::state::{Block, State};
use markdown_engine::tokenizer::Tokenizer;
use state_table::steps::around_if;
use std::alloc::Allocator;

/// The kinds of HTML blocks are less than this, and the bytes of fences aren't.
const HTML_KINDS_END: u8 = 8;

/// Whether an HTML block goes on, and no fence.
fn is_in_html<M, T, A: Allocator>(tokenizer: &Tokenizer<'_, M, T, A>) -> bool
    ensures { result ≡ is_in_html (config tokenizer.now) }
{
    tokenizer.tokenize_state.marker < HTML_KINDS_END
}

/// At a line ending.
pub fn start<M, T, A: Allocator>(tokenizer: &mut Tokenizer<'_, M, T, A>) -> State
    ensures { Does non_lazy_continuation_start tokenizer.old tokenizer.new result }
{
    around_if(
        tokenizer,
        b'\n',
        EventName::LineEnding,
        Block::NonLazyContinuationAfter,
        State::Nok,
    )
}

/// At the start of the next line.
pub fn after<M, T, A: Allocator>(tokenizer: &mut Tokenizer<'_, M, T, A>) -> State
    ensures { Does non_lazy_continuation_after tokenizer.old tokenizer.new result }
{
    match tokenizer.current {
        None => {
            if is_in_html(tokenizer) {
                return State::Nok;
            }
            State::Ok
        },
        Some(_) => {
            if tokenizer.lazy {
                return State::Nok;
            }
            State::Ok
        },
    }
}
