//! Runs of markers (CommonMark 6.2, GFM 6.5, and marked text).
//!
//! ```text
//! attention_sequence ::= 1*'*' | 1*'_' | 1*'~' | 1*'='
//! ```
//!
//! Which runs go together is told once all is read.
ghost use Rattle.std.specs.Prelude.{[], ◌∷◌};
ghost use Rattle.engine_events.specs.declared.event.Name.TheVariants as names;
ghost use Rattle.markdown_engine.specs.Machine.{constructs_of};
ghost use Rattle.engine_programs.specs.Bodies.{FixedName};
ghost use Rattle.engine_programs.specs.Stacks.{Does, IsOpen};
ghost use Rattle.state_leaves.specs.Attention.{attention_start, attention_inside};
ghost use Rattle.state_leaves.specs.Attention.{attention_open};

use engine_programs::steps::{consume_to, enter_to, exit_to};
use markdown_engine::event::Name as EventName;
use markdown_engine::resolve;
use markdown_engine::state::{Inline, State};
use markdown_engine::tokenizer::Tokenizer;
use state_table::next;
use std::alloc::Allocator;

/// At the first byte of a run.
fn open<M, T, A: Allocator>(tokenizer: &mut Tokenizer<'_, M, T, A>, marker: u8) -> State
    ensures { Does (attention_open marker) tokenizer.old tokenizer.new result }
{
    tokenizer.tokenize_state.marker = marker;
    enter_to(
        tokenizer,
        EventName::AttentionSequence,
        next(Inline::AttentionInside),
    )
}

/// At a byte that may begin a run.
pub fn start<M, T, A: Allocator>(tokenizer: &mut Tokenizer<'_, M, T, A>) -> State
    ensures { Does (attention_start (constructs_of tokenizer.old)) tokenizer.old tokenizer.new result }
{
    match tokenizer.current {
        Some(b'*') => {
            if tokenizer.parse_state.options.constructs.attention {
                open(tokenizer, b'*')
            } else {
                State::Nok
            }
        },
        Some(b'_') => {
            if tokenizer.parse_state.options.constructs.attention {
                open(tokenizer, b'_')
            } else {
                State::Nok
            }
        },
        Some(b'~') => {
            if tokenizer.parse_state.options.constructs.gfm_strikethrough {
                open(tokenizer, b'~')
            } else {
                State::Nok
            }
        },
        Some(b'=') => {
            if tokenizer.parse_state.options.constructs.mark {
                open(tokenizer, b'=')
            } else {
                State::Nok
            }
        },
        _ => State::Nok,
    }
}

/// In a run.
pub fn inside<M, T, A: Allocator>(tokenizer: &mut Tokenizer<'_, M, T, A>) -> State
    requires { IsOpen (FixedName names.AttentionSequence ∷ []) tokenizer.old }
    ensures { Does attention_inside tokenizer.old tokenizer.new result }
{
    if tokenizer.current == Some(tokenizer.tokenize_state.marker) {
        return consume_to(tokenizer, next(Inline::AttentionInside));
    }
    if tokenizer
        .register_resolver(resolve::Name::Attention)
        .is_err()
    {
        return State::out_of_memory();
    }
    exit_to(tokenizer, EventName::AttentionSequence, State::Ok)
}
