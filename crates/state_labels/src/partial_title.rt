//! Titles of definitions and resources (CommonMark 4.7 and 6.3).
//!
//! ```text
//! title ::= '"' *(byte - '"' | '\\' byte) '"' | "'" *(byte - "'" | '\\' byte) "'"
//!     | '(' *(byte - '(' - ')' | '\\' byte) ')'
//! ```
//!
//! The caller names the events: the title, its markers, its text.
ghost use Rattle.std.specs.Prelude.{[], ◌∷◌};
ghost use Rattle.engine_events.specs.declared.event.Name.TheVariants as names;
ghost use Rattle.engine_programs.specs.Bodies.{FixedName, HeldName};
ghost use Rattle.engine_programs.specs.Stacks.{Does, IsOpen};
ghost use Rattle.state_table.specs.Table.{title_tokens};
ghost use Rattle.state_labels.specs.Title.{title_start, title_begin, title_at_break, title_after_eol, title_nok, title_inside, title_escape};
ghost use Rattle.std.specs.Prelude.{◌≡◌, Some};
ghost use Rattle.state_labels.specs.Title.{is_nested, title_byte, title_fails, title_open, title_part};

use crate::chunk::enter_part;
use engine_programs::around::{around, leave};
use engine_programs::steps::{around_to, attempt_to, consume_to, exit_to};
use markdown_engine::event::Name as EventName;
use markdown_engine::state::{Inline, State};
use markdown_engine::tokenizer::Tokenizer;
use state_table::{next, retry};
use std::alloc::Allocator;

/// After a first marker.
fn open<M, T, A: Allocator>(tokenizer: &mut Tokenizer<'_, M, T, A>, marker: u8) -> State
    ensures { Does (title_open marker) tokenizer.old tokenizer.new result }
{
    tokenizer.tokenize_state.marker = marker;
    tokenizer.tokenize_state.connect = true;
    if tokenizer.enter(tokenizer.tokenize_state.token_1).is_err() {
        return State::out_of_memory();
    }
    let name = tokenizer.tokenize_state.token_2;
    around_to(tokenizer, name, next(Inline::TitleBegin))
}

/// If there is no title.
fn fail<M, T, A: Allocator>(tokenizer: &mut Tokenizer<'_, M, T, A>) -> State
    ensures { Does title_fails tokenizer.old tokenizer.new result }
{
    tokenizer.tokenize_state.connect = false;
    State::Nok
}

/// Whether a byte is a parenthesis that can't stand between parentheses.
fn is_nested(marker: u8, byte: u8) -> bool
    ensures { result ≡ is_nested marker byte }
{
    marker == b')' && byte == b'('
}

/// Over a byte of the text.
fn over_byte<M, T, A: Allocator>(tokenizer: &mut Tokenizer<'_, M, T, A>, byte: u8) -> State
    requires { tokenizer.old.current ≡ Some byte }
    ensures { Does title_byte tokenizer.old tokenizer.new result }
{
    if byte == b'\\' {
        return consume_to(tokenizer, next(Inline::TitleEscape));
    }
    consume_to(tokenizer, next(Inline::TitleInside))
}

/// At a part of the text.
fn read_part<M, T, A: Allocator>(tokenizer: &mut Tokenizer<'_, M, T, A>, byte: u8) -> State
    requires { tokenizer.old.current ≡ Some byte }
    ensures { Does title_part tokenizer.old tokenizer.new result }
{
    if byte == b'\n' {
        return attempt_to(
            tokenizer,
            next(Inline::TitleAfterEol),
            next(Inline::TitleNok),
            retry(Inline::SpaceOrTabEolStart),
        );
    }
    if is_nested(tokenizer.tokenize_state.marker, byte) {
        return fail(tokenizer);
    }
    if enter_part(tokenizer, EventName::Data).is_err() {
        return State::out_of_memory();
    }
    over_byte(tokenizer, byte)
}

/// At a first marker.
pub fn start<M, T, A: Allocator>(tokenizer: &mut Tokenizer<'_, M, T, A>) -> State
    ensures { Does title_start tokenizer.old tokenizer.new result }
{
    match tokenizer.current {
        Some(b'"') => open(tokenizer, b'"'),
        Some(b'\'') => open(tokenizer, b'\''),
        Some(b'(') => open(tokenizer, b')'),
        _ => State::Nok,
    }
}

/// After the first marker, or at the last.
pub fn begin<M, T, A: Allocator>(tokenizer: &mut Tokenizer<'_, M, T, A>) -> State
    requires { IsOpen (HeldName 1 ∷ []) tokenizer.old }
    ensures { Does title_begin tokenizer.old tokenizer.new result }
{
    let Some(byte) = tokenizer.current else {
        return fail(tokenizer);
    };
    if byte == tokenizer.tokenize_state.marker {
        let name = tokenizer.tokenize_state.token_2;
        if around(tokenizer, name).is_err() {
            return State::out_of_memory();
        }
        let name = tokenizer.tokenize_state.token_1;
        if leave(tokenizer, name).is_err() {
            return State::out_of_memory();
        }
        tokenizer.tokenize_state.connect = false;
        return State::Ok;
    }
    if tokenizer.enter(tokenizer.tokenize_state.token_3).is_err() {
        return State::out_of_memory();
    }
    read_part(tokenizer, byte)
}

/// Between the parts of the text.
pub fn at_break<M, T, A: Allocator>(tokenizer: &mut Tokenizer<'_, M, T, A>) -> State
    requires { IsOpen title_tokens tokenizer.old }
    ensures { Does title_at_break tokenizer.old tokenizer.new result }
{
    let Some(byte) = tokenizer.current else {
        return retry(Inline::TitleNok);
    };
    if byte == tokenizer.tokenize_state.marker {
        return exit_to(
            tokenizer,
            tokenizer.tokenize_state.token_3,
            retry(Inline::TitleBegin),
        );
    }
    read_part(tokenizer, byte)
}

/// After a line ending.
pub fn after_eol<M, T, A: Allocator>(tokenizer: &mut Tokenizer<'_, M, T, A>) -> State
    ensures { Does title_after_eol tokenizer.old tokenizer.new result }
{
    retry(Inline::TitleAtBreak)
}

/// If there is no title.
pub fn nok<M, T, A: Allocator>(tokenizer: &mut Tokenizer<'_, M, T, A>) -> State
    ensures { Does title_nok tokenizer.old tokenizer.new result }
{
    fail(tokenizer)
}

/// In data.
pub fn inside<M, T, A: Allocator>(tokenizer: &mut Tokenizer<'_, M, T, A>) -> State
    requires { IsOpen (FixedName names.Data ∷ title_tokens) tokenizer.old }
    ensures { Does title_inside tokenizer.old tokenizer.new result }
{
    if let Some(byte) = tokenizer.current {
        if byte != b'\n'
            && byte != tokenizer.tokenize_state.marker
            && !is_nested(tokenizer.tokenize_state.marker, byte)
        {
            return over_byte(tokenizer, byte);
        }
    }
    exit_to(tokenizer, EventName::Data, retry(Inline::TitleAtBreak))
}

/// After a backslash.
pub fn escape<M, T, A: Allocator>(tokenizer: &mut Tokenizer<'_, M, T, A>) -> State
    ensures { Does title_escape tokenizer.old tokenizer.new result }
{
    if let Some(byte) = tokenizer.current {
        if byte == tokenizer.tokenize_state.marker || matches!(byte, b'(' | b'\\') {
            return consume_to(tokenizer, next(Inline::TitleInside));
        }
    }
    retry(Inline::TitleInside)
}
