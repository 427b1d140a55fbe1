//! Character references (CommonMark 2.5).
//!
//! ```text
//! character_reference ::= '&' (numeric | name) ';'
//! numeric ::= '#' (('x' | 'X') 1*6hexadecimal_digit | 1*7digit)
//! name ::= 1*31(letter | digit), one that the tables know
//! ```
ghost use Rattle.std.specs.Prelude.{◌∷◌};
ghost use Rattle.engine_events.specs.declared.event.Name.TheVariants as names;
ghost use Rattle.markdown_engine.specs.Machine.{config, constructs_of, bytes_of, tables_of};
ghost use Rattle.engine_programs.specs.Bodies.{FixedName};
ghost use Rattle.engine_programs.specs.Stacks.{Does, IsOpen};
ghost use Rattle.state_table.specs.Table.{reference_tokens};
ghost use Rattle.state_leaves.specs.CharacterReference.{character_reference_start, character_reference_open};
ghost use Rattle.state_leaves.specs.CharacterReference.{character_reference_numeric, character_reference_value};
ghost use Rattle.std.specs.Prelude.{◌≡◌};
ghost use Rattle.state_leaves.specs.CharacterReference.{goes_on, has_text, is_value_known, is_name};

use engine_programs::around::{around, leave};
use engine_programs::steps::{around_to, consume_to, enter_to, exit_to};
use markdown_engine::event::Name as EventName;
use markdown_engine::state::{Inline, State};
use markdown_engine::tokenizer::Tokenizer;
use markdown_options::Tables;
use markdown_options::constants::{
    CHARACTER_REFERENCE_DECIMAL_SIZE_MAX, CHARACTER_REFERENCE_HEXADECIMAL_SIZE_MAX,
    CHARACTER_REFERENCE_NAMED_SIZE_MAX,
};
use state_table::next;
use std::alloc::Allocator;

/// Whether a byte may be the next of a reference, of which so many were read.
fn goes_on(marker: u8, size: usize, byte: u8) -> bool
    ensures { result ≡ goes_on marker size byte }
{
    match marker {
        b'&' => size < CHARACTER_REFERENCE_NAMED_SIZE_MAX && byte.is_ascii_alphanumeric(),
        b'x' => size < CHARACTER_REFERENCE_HEXADECIMAL_SIZE_MAX && byte.is_ascii_hexdigit(),
        _ => size < CHARACTER_REFERENCE_DECIMAL_SIZE_MAX && byte.is_ascii_digit(),
    }
}

/// Whether the tables know the name of so many bytes before an index.
fn is_name<T: Tables>(tables: &T, bytes: &[u8], size: usize, index: usize) -> bool
    ensures { result ≡ is_name (T.reference_of tables.now) bytes.now size index }
{
    let start = index.saturating_sub(size);
    if bytes.len() < index {
        return false;
    }
    has_text(tables, &bytes[start..index])
}

/// Whether the tables know a name.
fn has_text<T: Tables>(tables: &T, name: &[u8]) -> bool
    ensures { result ≡ has_text (T.reference_of tables.now) name.now }
{
    match str::from_utf8(name) {
        Ok(name) => tables.reference(name).is_some(),
        Err(_) => false,
    }
}

/// Whether the value that was read stands for something: digits always do.
fn is_known<M, T: Tables, A: Allocator>(tokenizer: &Tokenizer<'_, M, T, A>) -> bool
    ensures { result ≡ is_value_known (T.reference_of (tables_of tokenizer.now)) (bytes_of tokenizer.now) (config tokenizer.now) }
{
    let size = tokenizer.tokenize_state.size;
    if size == 0 || tokenizer.tokenize_state.marker != b'&' {
        return size != 0;
    }
    let parse_state = tokenizer.parse_state;
    is_name(
        parse_state.tables,
        parse_state.bytes,
        size,
        tokenizer.point.index,
    )
}

/// At an `&`.
pub fn start<M, T, A: Allocator>(tokenizer: &mut Tokenizer<'_, M, T, A>) -> State
    ensures { Does (character_reference_start (constructs_of tokenizer.old).character_reference) tokenizer.old tokenizer.new result }
{
    if tokenizer.current != Some(b'&') {
        return State::Nok;
    }
    if tokenizer.parse_state.options.constructs.character_reference {
        if tokenizer.enter(EventName::CharacterReference).is_err() {
            return State::out_of_memory();
        }
        return around_to(
            tokenizer,
            EventName::CharacterReferenceMarker,
            next(Inline::CharacterReferenceOpen),
        );
    }
    State::Nok
}

/// After the `&`.
pub fn open<M, T, A: Allocator>(tokenizer: &mut Tokenizer<'_, M, T, A>) -> State
    ensures { Does character_reference_open tokenizer.old tokenizer.new result }
{
    let Some(byte) = tokenizer.current else {
        return State::Nok;
    };
    if byte == b'#' {
        return around_to(
            tokenizer,
            EventName::CharacterReferenceMarkerNumeric,
            next(Inline::CharacterReferenceNumeric),
        );
    }
    if byte.is_ascii_alphanumeric() {
        tokenizer.tokenize_state.marker = b'&';
        tokenizer.tokenize_state.size = 1;
        return enter_to(
            tokenizer,
            EventName::CharacterReferenceValue,
            next(Inline::CharacterReferenceValue),
        );
    }
    State::Nok
}

/// After the `#`.
pub fn numeric<M, T, A: Allocator>(tokenizer: &mut Tokenizer<'_, M, T, A>) -> State
    ensures { Does character_reference_numeric tokenizer.old tokenizer.new result }
{
    let Some(byte) = tokenizer.current else {
        return State::Nok;
    };
    if matches!(byte, b'x' | b'X') {
        tokenizer.tokenize_state.marker = b'x';
        tokenizer.tokenize_state.size = 0;
        if around(tokenizer, EventName::CharacterReferenceMarkerHexadecimal).is_err() {
            return State::out_of_memory();
        }
        if tokenizer.enter(EventName::CharacterReferenceValue).is_err() {
            return State::out_of_memory();
        }
        return next(Inline::CharacterReferenceValue);
    }
    if byte.is_ascii_digit() {
        tokenizer.tokenize_state.marker = b'#';
        tokenizer.tokenize_state.size = 1;
        return enter_to(
            tokenizer,
            EventName::CharacterReferenceValue,
            next(Inline::CharacterReferenceValue),
        );
    }
    State::Nok
}

/// In the value.
pub fn value<M, T: Tables, A: Allocator>(tokenizer: &mut Tokenizer<'_, M, T, A>) -> State
    requires { IsOpen (FixedName names.CharacterReferenceValue ∷ reference_tokens) tokenizer.old }
    ensures { Does (character_reference_value (T.reference_of (tables_of tokenizer.old)) (bytes_of tokenizer.old)) tokenizer.old tokenizer.new result }
{
    let Some(byte) = tokenizer.current else {
        return State::Nok;
    };
    if byte == b';' && is_known(tokenizer) {
        if leave(tokenizer, EventName::CharacterReferenceValue).is_err() {
            return State::out_of_memory();
        }
        if around(tokenizer, EventName::CharacterReferenceMarkerSemi).is_err() {
            return State::out_of_memory();
        }
        return exit_to(tokenizer, EventName::CharacterReference, State::Ok);
    }
    if goes_on(
        tokenizer.tokenize_state.marker,
        tokenizer.tokenize_state.size,
        byte,
    ) {
        tokenizer.tokenize_state.size = tokenizer.tokenize_state.size.saturating_add(1);
        return consume_to(tokenizer, next(Inline::CharacterReferenceValue));
    }
    State::Nok
}
