//! Strings: of titles, destinations, labels, infos.
//!
//! ```text
//! string ::= *(character_escape | character_reference | data)
//! ```
ghost use Rattle.engine_programs.specs.Stacks.{Does};
ghost use Rattle.state_inline.specs.Strings.{string_start, string_before, string_before_data};

use engine_programs::steps::attempt_to;
use markdown_engine::resolve;
use markdown_engine::state::{Inline, State};
use markdown_engine::tokenizer::Tokenizer;
use state_table::{next, retry};
use std::alloc::Allocator;

/// At the first byte.
pub fn start<M, T, A: Allocator>(tokenizer: &mut Tokenizer<'_, M, T, A>) -> State
    ensures { Does string_start tokenizer.old tokenizer.new result }
{
    retry(Inline::StringBefore)
}

/// Before each part.
pub fn before<M, T, A: Allocator>(tokenizer: &mut Tokenizer<'_, M, T, A>) -> State
    ensures { Does string_before tokenizer.old tokenizer.new result }
{
    match tokenizer.current {
        None => {
            if tokenizer.register_resolver(resolve::Name::Data).is_err() {
                return State::out_of_memory();
            }
            if tokenizer.register_resolver(resolve::Name::String).is_err() {
                return State::out_of_memory();
            }
            State::Ok
        },
        Some(b'&') => attempt_to(
            tokenizer,
            next(Inline::StringBefore),
            next(Inline::StringBeforeData),
            retry(Inline::CharacterReferenceStart),
        ),
        Some(b'\\') => attempt_to(
            tokenizer,
            next(Inline::StringBefore),
            next(Inline::StringBeforeData),
            retry(Inline::CharacterEscapeStart),
        ),
        Some(_) => retry(Inline::StringBeforeData),
    }
}

/// Where no construct is.
pub fn before_data<M, T, A: Allocator>(tokenizer: &mut Tokenizer<'_, M, T, A>) -> State
    ensures { Does string_before_data tokenizer.old tokenizer.new result }
{
    if tokenizer.current.is_none() {
        return State::Ok;
    }
    tokenizer.tokenize_state.seen = false;
    attempt_to(
        tokenizer,
        next(Inline::StringBefore),
        State::Nok,
        retry(Inline::DataStart),
    )
}
