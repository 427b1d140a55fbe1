//! Destinations of definitions and resources (CommonMark 4.7 and 6.3).
//!
//! ```text
//! destination ::= '<' *(byte - line_ending - '<' - '>' - '\\' | '\\' ['<' | '>' | '\\']) '>' | raw, not beginning with '<'
//! raw ::= 1*(byte - control - ' ' - '\\' - '(' - ')' | '\\' ['(' | ')' | '\\'] | '(' [raw] ')')
//! ```
//!
//! A backslash takes the byte after it if it can.
//!
//! The caller names the events: the destination; a literal, its markers; a raw one; the text. `size_b` is
//! how many parentheses may be open at once.
ghost use Rattle.std.specs.Prelude.{[], ◌∷◌};
ghost use Rattle.engine_events.specs.declared.event.Name.TheVariants as names;
ghost use Rattle.engine_programs.specs.Bodies.{FixedName, HeldName};
ghost use Rattle.engine_programs.specs.Stacks.{Does, IsOpen};
ghost use Rattle.state_labels.specs.Destination.{destination_start, destination_enclosed_before, destination_enclosed};
ghost use Rattle.state_labels.specs.Destination.{destination_enclosed_escape, destination_raw, destination_raw_escape};
ghost use Rattle.std.specs.Prelude.{◌≡◌, Some};
ghost use Rattle.state_labels.specs.Destination.{begin_enclosed, enclosed_byte, is_control, begin_raw, raw_byte, raw_end};
ghost use Rattle.state_table.specs.Table.{raw_destination_tokens};

use crate::chunk::FIRST;
use engine_programs::around::{around, leave};
use engine_programs::steps::{around_to, consume_to, exit_to};
use markdown_engine::event::Name as EventName;
use markdown_engine::state::{Inline, State};
use markdown_engine::tokenizer::Tokenizer;
use state_table::{next, retry};
use std::alloc::Allocator;

/// Whether a byte can't stand in a destination with no angle brackets; NUL may.
fn is_control(byte: u8) -> bool
    ensures { result ≡ is_control byte }
{
    matches!(byte, 0x01..=b' ' | 0x7F)
}

/// Over a byte between angle brackets.
fn over_enclosed<M, T, A: Allocator>(tokenizer: &mut Tokenizer<'_, M, T, A>, byte: u8) -> State
    requires { tokenizer.old.current ≡ Some byte }
    ensures { Does enclosed_byte tokenizer.old tokenizer.new result }
{
    if byte == b'\\' {
        return consume_to(tokenizer, next(Inline::DestinationEnclosedEscape));
    }
    consume_to(tokenizer, next(Inline::DestinationEnclosed))
}

/// Over a byte with no angle brackets around.
fn over_raw<M, T, A: Allocator>(tokenizer: &mut Tokenizer<'_, M, T, A>, byte: u8) -> State
    requires { tokenizer.old.current ≡ Some byte }
    ensures { Does raw_byte tokenizer.old tokenizer.new result }
{
    if byte == b'\\' {
        return consume_to(tokenizer, next(Inline::DestinationRawEscape));
    }
    if byte == b'(' {
        if tokenizer.tokenize_state.size >= tokenizer.tokenize_state.size_b {
            return State::Nok;
        }
        tokenizer.tokenize_state.size = tokenizer.tokenize_state.size.saturating_add(1);
    }
    consume_to(tokenizer, next(Inline::DestinationRaw))
}

/// Over the first byte between angle brackets.
fn begin_enclosed<M, T, A: Allocator>(tokenizer: &mut Tokenizer<'_, M, T, A>, state: State) -> State
    ensures { Does (begin_enclosed state) tokenizer.old tokenizer.new result }
{
    if tokenizer.enter(tokenizer.tokenize_state.token_5).is_err() {
        return State::out_of_memory();
    }
    if tokenizer.enter_link(EventName::Data, FIRST).is_err() {
        return State::out_of_memory();
    }
    consume_to(tokenizer, state)
}

/// Over the first byte with no angle brackets around, after which so many parentheses are open.
fn begin_raw<M, T, A: Allocator>(
    tokenizer: &mut Tokenizer<'_, M, T, A>,
    size: usize,
    state: State,
) -> State
    ensures { Does (begin_raw size state) tokenizer.old tokenizer.new result }
{
    tokenizer.tokenize_state.size = size;
    if tokenizer.enter(tokenizer.tokenize_state.token_1).is_err() {
        return State::out_of_memory();
    }
    if tokenizer.enter(tokenizer.tokenize_state.token_4).is_err() {
        return State::out_of_memory();
    }
    begin_enclosed(tokenizer, state)
}

/// At the end of a destination with no angle brackets.
fn end_raw<M, T, A: Allocator>(tokenizer: &mut Tokenizer<'_, M, T, A>) -> State
    requires { IsOpen raw_destination_tokens tokenizer.old }
    ensures { Does raw_end tokenizer.old tokenizer.new result }
{
    if tokenizer.tokenize_state.size != 0 {
        return State::Nok;
    }
    if leave(tokenizer, EventName::Data).is_err() {
        return State::out_of_memory();
    }
    let string = tokenizer.tokenize_state.token_5;
    if leave(tokenizer, string).is_err() {
        return State::out_of_memory();
    }
    let raw = tokenizer.tokenize_state.token_4;
    if leave(tokenizer, raw).is_err() {
        return State::out_of_memory();
    }
    exit_to(tokenizer, tokenizer.tokenize_state.token_1, State::Ok)
}

/// At the first byte.
pub fn start<M, T, A: Allocator>(tokenizer: &mut Tokenizer<'_, M, T, A>) -> State
    ensures { Does destination_start tokenizer.old tokenizer.new result }
{
    let Some(byte) = tokenizer.current else {
        return State::Nok;
    };
    if byte == b'<' {
        if tokenizer.enter(tokenizer.tokenize_state.token_1).is_err() {
            return State::out_of_memory();
        }
        if tokenizer.enter(tokenizer.tokenize_state.token_2).is_err() {
            return State::out_of_memory();
        }
        return around_to(
            tokenizer,
            tokenizer.tokenize_state.token_3,
            next(Inline::DestinationEnclosedBefore),
        );
    }
    if is_control(byte) {
        return State::Nok;
    }
    if byte == b')' {
        return State::Nok;
    }
    if byte == b'(' {
        return if tokenizer.tokenize_state.size_b > 0 {
            begin_raw(tokenizer, 1, next(Inline::DestinationRaw))
        } else {
            State::Nok
        };
    }
    if byte == b'\\' {
        return begin_raw(tokenizer, 0, next(Inline::DestinationRawEscape));
    }
    begin_raw(tokenizer, 0, next(Inline::DestinationRaw))
}

/// After the `<`, or at the `>`.
pub fn enclosed_before<M, T, A: Allocator>(tokenizer: &mut Tokenizer<'_, M, T, A>) -> State
    requires { IsOpen (HeldName 2 ∷ HeldName 1 ∷ []) tokenizer.old }
    ensures { Does destination_enclosed_before tokenizer.old tokenizer.new result }
{
    match tokenizer.current {
        None => State::Nok,
        Some(b'>') => {
            let name = tokenizer.tokenize_state.token_3;
            if around(tokenizer, name).is_err() {
                return State::out_of_memory();
            }
            let name = tokenizer.tokenize_state.token_2;
            if leave(tokenizer, name).is_err() {
                return State::out_of_memory();
            }
            exit_to(tokenizer, tokenizer.tokenize_state.token_1, State::Ok)
        },
        Some(b'\n' | b'<') => State::Nok,
        Some(b'\\') => begin_enclosed(tokenizer, next(Inline::DestinationEnclosedEscape)),
        Some(_) => begin_enclosed(tokenizer, next(Inline::DestinationEnclosed)),
    }
}

/// Between the angle brackets.
pub fn enclosed<M, T, A: Allocator>(tokenizer: &mut Tokenizer<'_, M, T, A>) -> State
    requires { IsOpen (FixedName names.Data ∷ HeldName 5 ∷ HeldName 2 ∷ HeldName 1 ∷ []) tokenizer.old }
    ensures { Does destination_enclosed tokenizer.old tokenizer.new result }
{
    let Some(byte) = tokenizer.current else {
        return State::Nok;
    };
    if byte == b'>' {
        if leave(tokenizer, EventName::Data).is_err() {
            return State::out_of_memory();
        }
        return exit_to(
            tokenizer,
            tokenizer.tokenize_state.token_5,
            retry(Inline::DestinationEnclosedBefore),
        );
    }
    if matches!(byte, b'\n' | b'<') {
        return State::Nok;
    }
    over_enclosed(tokenizer, byte)
}

/// Between the angle brackets, after a backslash.
pub fn enclosed_escape<M, T, A: Allocator>(tokenizer: &mut Tokenizer<'_, M, T, A>) -> State
    ensures { Does destination_enclosed_escape tokenizer.old tokenizer.new result }
{
    match tokenizer.current {
        Some(b'<' | b'>' | b'\\') => consume_to(tokenizer, next(Inline::DestinationEnclosed)),
        _ => retry(Inline::DestinationEnclosed),
    }
}

/// With no angle brackets around.
pub fn raw<M, T, A: Allocator>(tokenizer: &mut Tokenizer<'_, M, T, A>) -> State
    requires { IsOpen raw_destination_tokens tokenizer.old }
    ensures { Does destination_raw tokenizer.old tokenizer.new result }
{
    let Some(byte) = tokenizer.current else {
        return end_raw(tokenizer);
    };
    if matches!(byte, b'\t' | b'\n' | b' ') {
        return end_raw(tokenizer);
    }
    if byte == b')' {
        if tokenizer.tokenize_state.size == 0 {
            return end_raw(tokenizer);
        }
        tokenizer.tokenize_state.size = tokenizer.tokenize_state.size.saturating_sub(1);
        return consume_to(tokenizer, next(Inline::DestinationRaw));
    }
    if is_control(byte) {
        return State::Nok;
    }
    over_raw(tokenizer, byte)
}

/// With no angle brackets around, after a backslash.
pub fn raw_escape<M, T, A: Allocator>(tokenizer: &mut Tokenizer<'_, M, T, A>) -> State
    ensures { Does destination_raw_escape tokenizer.old tokenizer.new result }
{
    match tokenizer.current {
        Some(b'(' | b')' | b'\\') => consume_to(tokenizer, next(Inline::DestinationRaw)),
        _ => retry(Inline::DestinationRaw),
    }
}
