//! Data, and line endings between it: what is no other construct.
//!
//! ```text
//! data ::= *(line_ending | 1*byte), up to a byte that may begin a construct
//! ```
//!
//! `seen` tells a text, with all its constructs, from a string.
ghost use Rattle.std.specs.Prelude.{[], ◌∷◌};
ghost use Rattle.engine_events.specs.declared.event.Name.TheVariants as names;
ghost use Rattle.engine_programs.specs.Bodies.{FixedName};
ghost use Rattle.engine_programs.specs.Stacks.{Does, IsOpen};
ghost use Rattle.state_leaves.specs.Data.{data_start, data_at_break, data_inside};
ghost use Rattle.std.specs.Prelude.{◌≡◌};
ghost use Rattle.state_leaves.specs.Data.{is_marker};

use engine_programs::steps::{around_to, consume_to, enter_to, exit_to};
use markdown_engine::event::Name as EventName;
use markdown_engine::state::{Inline, State};
use markdown_engine::tokenizer::Tokenizer;
use state_table::{next, retry};
use std::alloc::Allocator;

/// Whether a construct may begin with a byte, in a text or in a string.
fn is_marker(in_text: bool, byte: u8) -> bool
    ensures { result ≡ is_marker in_text byte }
{
    if in_text {
        matches!(
            byte,
            b'!' | b'$'
                | b'&'
                | b'*'
                | b'<'
                | b'='
                | b'H'
                | b'W'
                | b'['
                | b'\\'
                | b']'
                | b'_'
                | b'`'
                | b'h'
                | b'w'
                | b'~'
        )
    } else {
        matches!(byte, b'&' | b'\\')
    }
}

/// At a byte that begins no construct, or one that failed.
pub fn start<M, T, A: Allocator>(tokenizer: &mut Tokenizer<'_, M, T, A>) -> State
    ensures { Does data_start tokenizer.old tokenizer.new result }
{
    match tokenizer.current {
        Some(b'\n') => around_to(tokenizer, EventName::LineEnding, next(Inline::DataAtBreak)),
        _ => enter_to(tokenizer, EventName::Data, next(Inline::DataInside)),
    }
}

/// Between data and line endings.
pub fn at_break<M, T, A: Allocator>(tokenizer: &mut Tokenizer<'_, M, T, A>) -> State
    ensures { Does data_at_break tokenizer.old tokenizer.new result }
{
    let Some(byte) = tokenizer.current else {
        return State::Ok;
    };
    if byte == b'\n' {
        return around_to(tokenizer, EventName::LineEnding, next(Inline::DataAtBreak));
    }
    if is_marker(tokenizer.tokenize_state.seen, byte) {
        return State::Ok;
    }
    enter_to(tokenizer, EventName::Data, next(Inline::DataInside))
}

/// In data.
pub fn inside<M, T, A: Allocator>(tokenizer: &mut Tokenizer<'_, M, T, A>) -> State
    requires { IsOpen (FixedName names.Data ∷ []) tokenizer.old }
    ensures { Does data_inside tokenizer.old tokenizer.new result }
{
    if let Some(byte) = tokenizer.current {
        if byte != b'\n' && !is_marker(tokenizer.tokenize_state.seen, byte) {
            return consume_to(tokenizer, next(Inline::DataInside));
        }
    }
    exit_to(tokenizer, EventName::Data, retry(Inline::DataAtBreak))
}
