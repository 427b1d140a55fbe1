//! Autolinks (CommonMark 6.5).
//!
//! ```text
//! autolink ::= '<' (url | email) '>'
//! url ::= scheme ':' url_byte*
//! scheme ::= letter 1*31(letter | digit | '+' | '-' | '.')
//! url_byte ::= byte - control - ' ' - '<' - '>'
//! email ::= 1*atext '@' label *('.' label)
//! label ::= 1*63(letter | digit | '-'), with no '-' at either end
//! ```
//!
//! An address is entered as a protocol; which one is an email's is told from its bytes once all is read.
ghost use Rattle.markdown_engine.specs.Machine.{constructs_of};
ghost use Rattle.engine_programs.specs.Stacks.{Does, IsOpen};
ghost use Rattle.state_table.specs.Table.{address_tokens};
ghost use Rattle.state_html.specs.Autolink.{autolink_start, autolink_open, autolink_scheme_or_email_atext};
ghost use Rattle.state_html.specs.Autolink.{autolink_scheme_inside_or_email_atext, autolink_url_inside, autolink_email_atext};
ghost use Rattle.state_html.specs.Autolink.{autolink_email_at_sign_or_dot, autolink_email_label, autolink_email_value};
ghost use Rattle.std.specs.Prelude.{◌≡◌};
ghost use Rattle.state_html.specs.Autolink.{autolink_end, ends_url, is_atext};

use engine_programs::around::{around, leave};
use engine_programs::steps::{consume_to, exit_to};
use markdown_engine::event::Name as EventName;
use markdown_engine::state::{Inline, State};
use markdown_engine::tokenizer::Tokenizer;
use markdown_options::constants::{AUTOLINK_DOMAIN_SIZE_MAX, AUTOLINK_SCHEME_SIZE_MAX};
use state_table::{next, retry};
use std::alloc::Allocator;

/// Whether a byte can't stand in a URL.
fn ends_url(byte: u8) -> bool
    ensures { result ≡ ends_url byte }
{
    byte <= b' ' || byte == b'<' || byte == 0x7F
}

/// Whether a byte can stand in the name of an email.
fn is_atext(byte: u8) -> bool
    ensures { result ≡ is_atext byte }
{
    byte.is_ascii_alphanumeric()
        || matches!(
            byte,
            b'!' | b'#'..=b'\'' | b'*' | b'+' | b'-'..=b'/' | b'=' | b'?' | b'^'..=b'`' | b'{'..=b'~'
        )
}

/// Over the `>` after an address.
fn end<M, T, A: Allocator>(tokenizer: &mut Tokenizer<'_, M, T, A>) -> State
    requires { IsOpen address_tokens tokenizer.old }
    ensures { Does autolink_end tokenizer.old tokenizer.new result }
{
    if leave(tokenizer, EventName::AutolinkProtocol).is_err() {
        return State::out_of_memory();
    }
    if around(tokenizer, EventName::AutolinkMarker).is_err() {
        return State::out_of_memory();
    }
    exit_to(tokenizer, EventName::Autolink, State::Ok)
}

/// At a `<`.
pub fn start<M, T, A: Allocator>(tokenizer: &mut Tokenizer<'_, M, T, A>) -> State
    ensures { Does (autolink_start (constructs_of tokenizer.old).autolink) tokenizer.old tokenizer.new result }
{
    if tokenizer.current != Some(b'<') {
        return State::Nok;
    }
    if tokenizer.parse_state.options.constructs.autolink {
        if tokenizer.enter(EventName::Autolink).is_err() {
            return State::out_of_memory();
        }
        if around(tokenizer, EventName::AutolinkMarker).is_err() {
            return State::out_of_memory();
        }
        if tokenizer.enter(EventName::AutolinkProtocol).is_err() {
            return State::out_of_memory();
        }
        return next(Inline::AutolinkOpen);
    }
    State::Nok
}

/// After the `<`.
pub fn open<M, T, A: Allocator>(tokenizer: &mut Tokenizer<'_, M, T, A>) -> State
    ensures { Does autolink_open tokenizer.old tokenizer.new result }
{
    let Some(byte) = tokenizer.current else {
        return State::Nok;
    };
    if byte.is_ascii_alphabetic() {
        return consume_to(tokenizer, next(Inline::AutolinkSchemeOrEmailAtext));
    }
    if byte == b'@' {
        return State::Nok;
    }
    retry(Inline::AutolinkEmailAtext)
}

/// After the first letter.
pub fn scheme_or_email_atext<M, T, A: Allocator>(tokenizer: &mut Tokenizer<'_, M, T, A>) -> State
    ensures { Does autolink_scheme_or_email_atext tokenizer.old tokenizer.new result }
{
    let Some(byte) = tokenizer.current else {
        return State::Nok;
    };
    if matches!(byte, b'+' | b'-' | b'.') || byte.is_ascii_alphanumeric() {
        tokenizer.tokenize_state.size = 1;
        return retry(Inline::AutolinkSchemeInsideOrEmailAtext);
    }
    retry(Inline::AutolinkEmailAtext)
}

/// In a scheme or in the name of an email, after two bytes at least.
pub fn scheme_inside_or_email_atext<M, T, A: Allocator>(
    tokenizer: &mut Tokenizer<'_, M, T, A>,
) -> State
    ensures { Does autolink_scheme_inside_or_email_atext tokenizer.old tokenizer.new result }
{
    let Some(byte) = tokenizer.current else {
        return State::Nok;
    };
    if byte == b':' {
        return consume_to(tokenizer, next(Inline::AutolinkUrlInside));
    }
    if matches!(byte, b'+' | b'-' | b'.') || byte.is_ascii_alphanumeric() {
        if tokenizer.tokenize_state.size < AUTOLINK_SCHEME_SIZE_MAX {
            tokenizer.tokenize_state.size = tokenizer.tokenize_state.size.saturating_add(1);
            return consume_to(tokenizer, next(Inline::AutolinkSchemeInsideOrEmailAtext));
        }
        return retry(Inline::AutolinkEmailAtext);
    }
    retry(Inline::AutolinkEmailAtext)
}

/// In a URL.
pub fn url_inside<M, T, A: Allocator>(tokenizer: &mut Tokenizer<'_, M, T, A>) -> State
    requires { IsOpen address_tokens tokenizer.old }
    ensures { Does autolink_url_inside tokenizer.old tokenizer.new result }
{
    let Some(byte) = tokenizer.current else {
        return State::Nok;
    };
    if byte == b'>' {
        return end(tokenizer);
    }
    if ends_url(byte) {
        return State::Nok;
    }
    consume_to(tokenizer, next(Inline::AutolinkUrlInside))
}

/// In the name of an email.
pub fn email_atext<M, T, A: Allocator>(tokenizer: &mut Tokenizer<'_, M, T, A>) -> State
    ensures { Does autolink_email_atext tokenizer.old tokenizer.new result }
{
    let Some(byte) = tokenizer.current else {
        return State::Nok;
    };
    if byte == b'@' {
        tokenizer.tokenize_state.size = 0;
        return consume_to(tokenizer, next(Inline::AutolinkEmailAtSignOrDot));
    }
    if is_atext(byte) {
        return consume_to(tokenizer, next(Inline::AutolinkEmailAtext));
    }
    State::Nok
}

/// After the `@` or a dot.
pub fn email_at_sign_or_dot<M, T, A: Allocator>(tokenizer: &mut Tokenizer<'_, M, T, A>) -> State
    ensures { Does autolink_email_at_sign_or_dot tokenizer.old tokenizer.new result }
{
    let Some(byte) = tokenizer.current else {
        return State::Nok;
    };
    if byte.is_ascii_alphanumeric() {
        return retry(Inline::AutolinkEmailValue);
    }
    State::Nok
}

/// In a label, after a letter or a digit.
pub fn email_label<M, T, A: Allocator>(tokenizer: &mut Tokenizer<'_, M, T, A>) -> State
    requires { IsOpen address_tokens tokenizer.old }
    ensures { Does autolink_email_label tokenizer.old tokenizer.new result }
{
    match tokenizer.current {
        None => State::Nok,
        Some(b'.') => {
            tokenizer.tokenize_state.size = 0;
            consume_to(tokenizer, next(Inline::AutolinkEmailAtSignOrDot))
        },
        Some(b'>') => end(tokenizer),
        Some(_) => retry(Inline::AutolinkEmailValue),
    }
}

/// In a label, at any byte.
pub fn email_value<M, T, A: Allocator>(tokenizer: &mut Tokenizer<'_, M, T, A>) -> State
    ensures { Does autolink_email_value tokenizer.old tokenizer.new result }
{
    let Some(byte) = tokenizer.current else {
        return State::Nok;
    };
    if byte == b'-' {
        if tokenizer.tokenize_state.size < AUTOLINK_DOMAIN_SIZE_MAX {
            tokenizer.tokenize_state.size = tokenizer.tokenize_state.size.saturating_add(1);
            return consume_to(tokenizer, next(Inline::AutolinkEmailValue));
        }
        return State::Nok;
    }
    if byte.is_ascii_alphanumeric() {
        if tokenizer.tokenize_state.size < AUTOLINK_DOMAIN_SIZE_MAX {
            tokenizer.tokenize_state.size = tokenizer.tokenize_state.size.saturating_add(1);
            return consume_to(tokenizer, next(Inline::AutolinkEmailLabel));
        }
        return State::Nok;
    }
    State::Nok
}
