//! Labels: of full references, and of definitions (CommonMark 4.7 and 6.3).
//!
//! ```text
//! label ::= '[' 1*(byte - '[' - ']' | '\\' byte) ']', with a byte that isn't white space
//! ```
//!
//! At most 999 bytes, not counting line endings and the spaces and tabs right after one. The caller
//! names the events: the label, its markers, its text.
ghost use Rattle.std.specs.Prelude.{◌∷◌};
ghost use Rattle.engine_events.specs.declared.event.Name.TheVariants as names;
ghost use Rattle.engine_programs.specs.Bodies.{FixedName};
ghost use Rattle.engine_programs.specs.Stacks.{Does, IsOpen};
ghost use Rattle.state_table.specs.Table.{label_tokens};
ghost use Rattle.state_labels.specs.Label.{label_start, label_at_break, label_eol_after, label_nok, label_inside, label_escape};
ghost use Rattle.std.specs.Prelude.{◌≡◌, Some};
ghost use Rattle.state_labels.specs.Label.{count_byte, label_byte, label_close};

use crate::chunk::enter_part;
use engine_programs::around::{around, leave};
use engine_programs::steps::{attempt_to, consume_to, exit_to};
use markdown_engine::event::Name as EventName;
use markdown_engine::place::Point;
use markdown_engine::state::{Inline, State};
use markdown_engine::tokenizer::Tokenizer;
use markdown_options::constants::LINK_REFERENCE_SIZE_MAX;
use state_table::{next, retry};
use std::alloc::Allocator;

/// How many bytes were counted: of a tab only the first column.
fn count_byte(size: usize, point: Point) -> usize
    ensures { result ≡ count_byte size point }
{
    if point.vs == 0 {
        size.saturating_add(1)
    } else {
        size
    }
}

/// Over a byte of the text.
fn over_byte<M, T, A: Allocator>(tokenizer: &mut Tokenizer<'_, M, T, A>, byte: u8) -> State
    requires { tokenizer.old.current ≡ Some byte }
    ensures { Does label_byte tokenizer.old tokenizer.new result }
{
    let size = count_byte(tokenizer.tokenize_state.size, tokenizer.point);
    let seen = tokenizer.tokenize_state.seen || !matches!(byte, b'\t' | b' ');
    tokenizer.tokenize_state.size = size;
    tokenizer.tokenize_state.seen = seen;
    if byte == b'\\' {
        return consume_to(tokenizer, next(Inline::LabelEscape));
    }
    consume_to(tokenizer, next(Inline::LabelInside))
}

/// Over the end of the text.
fn close<M, T, A: Allocator>(tokenizer: &mut Tokenizer<'_, M, T, A>) -> State
    requires { IsOpen label_tokens tokenizer.old }
    ensures { Does label_close tokenizer.old tokenizer.new result }
{
    let string = tokenizer.tokenize_state.token_3;
    if leave(tokenizer, string).is_err() {
        return State::out_of_memory();
    }
    let marker = tokenizer.tokenize_state.token_2;
    if around(tokenizer, marker).is_err() {
        return State::out_of_memory();
    }
    let label = tokenizer.tokenize_state.token_1;
    if leave(tokenizer, label).is_err() {
        return State::out_of_memory();
    }
    tokenizer.tokenize_state.connect = false;
    State::Ok
}

/// At a `[`.
pub fn start<M, T, A: Allocator>(tokenizer: &mut Tokenizer<'_, M, T, A>) -> State
    ensures { Does label_start tokenizer.old tokenizer.new result }
{
    if tokenizer.current != Some(b'[') {
        return State::Nok;
    }
    tokenizer.tokenize_state.size = 0;
    tokenizer.tokenize_state.seen = false;
    tokenizer.tokenize_state.connect = true;
    if tokenizer.enter(tokenizer.tokenize_state.token_1).is_err() {
        return State::out_of_memory();
    }
    let name = tokenizer.tokenize_state.token_2;
    if around(tokenizer, name).is_err() {
        return State::out_of_memory();
    }
    if tokenizer.enter(tokenizer.tokenize_state.token_3).is_err() {
        return State::out_of_memory();
    }
    next(Inline::LabelAtBreak)
}

/// Between the parts of the text.
pub fn at_break<M, T, A: Allocator>(tokenizer: &mut Tokenizer<'_, M, T, A>) -> State
    requires { IsOpen label_tokens tokenizer.old }
    ensures { Does label_at_break tokenizer.old tokenizer.new result }
{
    let Some(byte) = tokenizer.current else {
        return retry(Inline::LabelNok);
    };
    if tokenizer.tokenize_state.size > LINK_REFERENCE_SIZE_MAX {
        return retry(Inline::LabelNok);
    }
    if byte == b'[' {
        return retry(Inline::LabelNok);
    }
    if byte == b']' {
        return if tokenizer.tokenize_state.seen {
            close(tokenizer)
        } else {
            retry(Inline::LabelNok)
        };
    }
    if byte == b'\n' {
        return attempt_to(
            tokenizer,
            next(Inline::LabelEolAfter),
            next(Inline::LabelNok),
            retry(Inline::SpaceOrTabEolStart),
        );
    }
    if enter_part(tokenizer, EventName::Data).is_err() {
        return State::out_of_memory();
    }
    over_byte(tokenizer, byte)
}

/// After a line ending.
pub fn eol_after<M, T, A: Allocator>(tokenizer: &mut Tokenizer<'_, M, T, A>) -> State
    ensures { Does label_eol_after tokenizer.old tokenizer.new result }
{
    retry(Inline::LabelAtBreak)
}

/// If there is no label.
pub fn nok<M, T, A: Allocator>(tokenizer: &mut Tokenizer<'_, M, T, A>) -> State
    ensures { Does label_nok tokenizer.old tokenizer.new result }
{
    tokenizer.tokenize_state.connect = false;
    State::Nok
}

/// In data.
pub fn inside<M, T, A: Allocator>(tokenizer: &mut Tokenizer<'_, M, T, A>) -> State
    requires { IsOpen (FixedName names.Data ∷ label_tokens) tokenizer.old }
    ensures { Does label_inside tokenizer.old tokenizer.new result }
{
    if let Some(byte) = tokenizer.current {
        if !matches!(byte, b'\n' | b'[' | b']')
            && tokenizer.tokenize_state.size <= LINK_REFERENCE_SIZE_MAX
        {
            return over_byte(tokenizer, byte);
        }
    }
    exit_to(tokenizer, EventName::Data, retry(Inline::LabelAtBreak))
}

/// After a backslash.
pub fn escape<M, T, A: Allocator>(tokenizer: &mut Tokenizer<'_, M, T, A>) -> State
    ensures { Does label_escape tokenizer.old tokenizer.new result }
{
    if let Some(byte) = tokenizer.current {
        if matches!(byte, b'[' | b'\\' | b']') {
            tokenizer.tokenize_state.size = count_byte(
                tokenizer.tokenize_state.size,
                tokenizer.point,
            );
            return consume_to(tokenizer, next(Inline::LabelInside));
        }
    }
    retry(Inline::LabelInside)
}
