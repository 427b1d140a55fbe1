//! Code spans (CommonMark 6.1) and math.
//!
//! ```text
//! raw_text ::= sequence 1*byte sequence, with both sequences of one size
//! sequence ::= 1*'`' | 1*'$', as long as it goes on
//! ```
//!
//! A sequence of another size within is entered as one, too; the first and the last are the fences.
ghost use Rattle.std.specs.Prelude.{◌∷◌};
ghost use Rattle.markdown_engine.specs.Machine.{config, read_with, constructs_of};
ghost use Rattle.engine_programs.specs.Bodies.{HeldName};
ghost use Rattle.engine_programs.specs.Stacks.{Does, IsOpen};
ghost use Rattle.state_table.specs.Table.{raw_tokens};
ghost use Rattle.state_leaves.specs.RawText.{raw_text_start, raw_text_sequence_open, raw_text_between, raw_text_data, raw_text_sequence_close};
ghost use Rattle.std.specs.Prelude.{◌≡◌};
ghost use Rattle.state_leaves.specs.RawText.{begins_run, raw_text_open};

use engine_programs::around::leave;
use engine_programs::steps::{around_to, consume_to, enter_to, exit_to};
use markdown_engine::event::Name as EventName;
use markdown_engine::state::{Inline, State};
use markdown_engine::tokenizer::Tokenizer;
use state_table::{next, retry};
use std::alloc::Allocator;

/// Whether a run begins here: the byte before isn't the same, or is escaped.
fn begins_run<M, T, A: Allocator>(tokenizer: &Tokenizer<'_, M, T, A>, marker: u8) -> bool
    ensures { result ≡ begins_run marker (config tokenizer.now) }
{
    if tokenizer.previous != Some(marker) {
        return true;
    }
    match tokenizer.events.last() {
        Some(event) => event.name == EventName::CharacterEscape,
        None => false,
    }
}

/// At the first byte of the opening run.
fn open<M, T, A: Allocator>(
    tokenizer: &mut Tokenizer<'_, M, T, A>,
    marker: u8,
    names: (EventName, EventName, EventName),
) -> State
    ensures { Does (raw_text_open marker names.0 names.1 names.2) tokenizer.old tokenizer.new result }
{
    if !begins_run(tokenizer, marker) {
        return State::Nok;
    }
    tokenizer.tokenize_state.token_1 = names.0;
    tokenizer.tokenize_state.token_2 = names.1;
    tokenizer.tokenize_state.token_3 = names.2;
    tokenizer.tokenize_state.marker = marker;
    tokenizer.tokenize_state.size = 1;
    tokenizer.tokenize_state.size_b = 0;
    if tokenizer.enter(names.0).is_err() {
        return State::out_of_memory();
    }
    enter_to(tokenizer, names.1, next(Inline::RawTextSequenceOpen))
}

const CODE: (EventName, EventName, EventName) = (
    EventName::CodeText,
    EventName::CodeTextSequence,
    EventName::CodeTextData,
);

const MATH: (EventName, EventName, EventName) = (
    EventName::MathText,
    EventName::MathTextSequence,
    EventName::MathTextData,
);

/// At a byte that may begin a run.
pub fn start<M, T, A: Allocator>(tokenizer: &mut Tokenizer<'_, M, T, A>) -> State
    ensures { Does (raw_text_start (constructs_of tokenizer.old).code_text (constructs_of tokenizer.old).math_text) tokenizer.old tokenizer.new result }
{
    match tokenizer.current {
        Some(b'`') => {
            if tokenizer.parse_state.options.constructs.code_text {
                open(tokenizer, b'`', CODE)
            } else {
                State::Nok
            }
        },
        Some(b'$') => {
            if tokenizer.parse_state.options.constructs.math_text {
                open(tokenizer, b'$', MATH)
            } else {
                State::Nok
            }
        },
        _ => State::Nok,
    }
}

/// In the opening run.
pub fn sequence_open<M, T, A: Allocator>(tokenizer: &mut Tokenizer<'_, M, T, A>) -> State
    requires { IsOpen (HeldName 2 ∷ raw_tokens) tokenizer.old }
    ensures { Does (raw_text_sequence_open (read_with tokenizer.old).options.math_text_single_dollar) tokenizer.old tokenizer.new result }
{
    let Some(byte) = tokenizer.current else {
        return State::Nok;
    };
    if byte == tokenizer.tokenize_state.marker {
        tokenizer.tokenize_state.size = tokenizer.tokenize_state.size.saturating_add(1);
        return consume_to(tokenizer, next(Inline::RawTextSequenceOpen));
    }
    if tokenizer.tokenize_state.marker == b'$'
        && tokenizer.tokenize_state.size == 1
        && !tokenizer.parse_state.options.math_text_single_dollar
    {
        State::Nok
    } else {
        exit_to(
            tokenizer,
            tokenizer.tokenize_state.token_2,
            retry(Inline::RawTextBetween),
        )
    }
}

/// Between the parts of the text.
pub fn between<M, T, A: Allocator>(tokenizer: &mut Tokenizer<'_, M, T, A>) -> State
    ensures { Does raw_text_between tokenizer.old tokenizer.new result }
{
    let Some(byte) = tokenizer.current else {
        return State::Nok;
    };
    if byte == b'\n' {
        return around_to(
            tokenizer,
            EventName::LineEnding,
            next(Inline::RawTextBetween),
        );
    }
    if byte == tokenizer.tokenize_state.marker {
        tokenizer.tokenize_state.size_b = 1;
        return enter_to(
            tokenizer,
            tokenizer.tokenize_state.token_2,
            next(Inline::RawTextSequenceClose),
        );
    }
    enter_to(
        tokenizer,
        tokenizer.tokenize_state.token_3,
        next(Inline::RawTextData),
    )
}

/// In the text.
pub fn data<M, T, A: Allocator>(tokenizer: &mut Tokenizer<'_, M, T, A>) -> State
    requires { IsOpen (HeldName 3 ∷ raw_tokens) tokenizer.old }
    ensures { Does raw_text_data tokenizer.old tokenizer.new result }
{
    if let Some(byte) = tokenizer.current {
        if byte != b'\n' && byte != tokenizer.tokenize_state.marker {
            return consume_to(tokenizer, next(Inline::RawTextData));
        }
    }
    exit_to(
        tokenizer,
        tokenizer.tokenize_state.token_3,
        retry(Inline::RawTextBetween),
    )
}

/// In a run that may close the text.
pub fn sequence_close<M, T, A: Allocator>(tokenizer: &mut Tokenizer<'_, M, T, A>) -> State
    requires { IsOpen (HeldName 2 ∷ raw_tokens) tokenizer.old }
    ensures { Does raw_text_sequence_close tokenizer.old tokenizer.new result }
{
    if tokenizer.current == Some(tokenizer.tokenize_state.marker) {
        tokenizer.tokenize_state.size_b = tokenizer.tokenize_state.size_b.saturating_add(1);
        return consume_to(tokenizer, next(Inline::RawTextSequenceClose));
    }
    let name = tokenizer.tokenize_state.token_2;
    if leave(tokenizer, name).is_err() {
        return State::out_of_memory();
    }
    if tokenizer.tokenize_state.size == tokenizer.tokenize_state.size_b {
        exit_to(tokenizer, tokenizer.tokenize_state.token_1, State::Ok)
    } else {
        retry(Inline::RawTextBetween)
    }
}
