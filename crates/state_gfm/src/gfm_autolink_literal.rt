//! Links that stand in a text as they are (GFM 6.9).
//!
//! ```text
//! gfm_autolink_literal ::= ("http://" | "https://" | "www.") domain path, and what of it is trail is cut
//! domain ::= 1*(character | '-' | '_' | '.'), no '_' in its last two parts
//! path ::= *byte, up to white space, '<', or a ']' that ends the text or a label
//! trail ::= *(one of !"'*,.:;?_~ | ')' with no '(' left | '&' 1*(letter | digit) ';')
//! ```
//!
//! `www.` is read as the front of its domain, of which it has no `_`. Whether a trail begins is asked at
//! each byte that may begin one, and up to where the answer was no it isn't asked again.
ghost use Rattle.std.specs.Prelude.{◌≡◌, [], ◌∷◌};
ghost use Rattle.engine_events.specs.declared.event.Name.TheVariants as names;
ghost use Rattle.markdown_engine.specs.Machine.{bytes_of, config, constructs_of, tables_of};
ghost use Rattle.engine_programs.specs.Bodies.{FixedName};
ghost use Rattle.engine_programs.specs.Stacks.{Does, IsOpen};
ghost use Rattle.state_gfm.specs.GfmAutolinkLiteral.{gfm_autolink_literal_protocol_start, gfm_autolink_literal_protocol_after};
ghost use Rattle.state_gfm.specs.GfmAutolinkLiteral.{gfm_autolink_literal_protocol_prefix_inside};
ghost use Rattle.state_gfm.specs.GfmAutolinkLiteral.{gfm_autolink_literal_protocol_slashes_inside, gfm_autolink_literal_www_start};
ghost use Rattle.state_gfm.specs.GfmAutolinkLiteral.{gfm_autolink_literal_www_after, gfm_autolink_literal_www_prefix_inside};
ghost use Rattle.state_gfm.specs.GfmAutolinkLiteral.{gfm_autolink_literal_www_prefix_after, gfm_autolink_literal_domain_inside};
ghost use Rattle.state_gfm.specs.GfmAutolinkLiteral.{gfm_autolink_literal_domain_at_punctuation};
ghost use Rattle.state_gfm.specs.GfmAutolinkLiteral.{gfm_autolink_literal_domain_after, gfm_autolink_literal_path_inside};
ghost use Rattle.state_gfm.specs.GfmAutolinkLiteral.{gfm_autolink_literal_path_at_punctuation, gfm_autolink_literal_path_after};
ghost use Rattle.state_gfm.specs.GfmAutolinkLiteral.{gfm_autolink_literal_trail, gfm_autolink_literal_trail_bracket_after};
ghost use Rattle.state_gfm.specs.GfmAutolinkLiteral.{gfm_autolink_literal_trail_char_ref_start};
ghost use Rattle.state_gfm.specs.GfmAutolinkLiteral.{gfm_autolink_literal_trail_char_ref_inside};
ghost use Rattle.state_gfm.specs.GfmAutolinkLiteral.{begin_domain, is_after_bracket, is_before_www, is_control};
ghost use Rattle.state_gfm.specs.GfmAutolinkLiteral.{is_domain, is_hard_end, is_known, is_plain, is_scheme_byte, is_trail};
ghost use Rattle.state_gfm.specs.GfmAutolinkLiteral.{may_trail, no_trail};

use engine_programs::steps::{attempt_to, check_to, consume_to, exit_to};
use engine_text::bytes::{first_code, goes_on, part, width};
use engine_text::char::{Kind, classify_opt};
use markdown_engine::event::Name as EventName;
use markdown_engine::state::{Inline, State};
use markdown_engine::tokenizer::Tokenizer;
use markdown_options::Tables;
use state_table::{next, retry};
use std::alloc::Allocator;

/// Whether the character at an index, which begins with a byte, is no white space and no punctuation.
fn is_plain<T: Tables>(tables: &T, bytes: &[u8], index: usize, byte: u8) -> bool
    ensures { result ≡ is_plain (T.punctuation_of tables.now) bytes.now index byte }
{
    let code = first_code(part(bytes, index, width(byte)));
    classify_opt(code, tables) == Kind::Other
}

/// Whether a byte is a control character.
fn is_control(byte: u8) -> bool
    ensures { result ≡ is_control byte }
{
    byte < 32 || byte == 127
}

/// Whether a literal that begins with `www.` may follow a byte.
fn is_before_www(byte: u8) -> bool
    ensures { result ≡ is_before_www byte }
{
    matches!(
        byte,
        b'\t' | b'\n' | b' ' | b'(' | b'*' | b'[' | b']' | b'_' | b'~'
    )
}

/// Whether a literal ends before a byte.
fn is_hard_end(byte: u8) -> bool
    ensures { result ≡ is_hard_end byte }
{
    matches!(byte, b'\t' | b'\n' | b' ' | b'<')
}

/// Whether a byte is cut from the end of a literal.
fn is_trail(byte: u8) -> bool
    ensures { result ≡ is_trail byte }
{
    matches!(
        byte,
        b'!' | b'"' | b'\'' | b'*' | b',' | b'.' | b':' | b';' | b'?' | b'_' | b'~'
    )
}

/// Whether a trail may begin with a byte.
fn may_trail(byte: u8) -> bool
    ensures { result ≡ may_trail byte }
{
    matches!(byte, b'&' | b')' | b']') || is_trail(byte)
}

/// Whether a literal ends before a `]` that a byte follows.
fn is_after_bracket(byte: u8) -> bool
    ensures { result ≡ is_after_bracket byte }
{
    matches!(byte, b'\t' | b'\n' | b' ' | b'(' | b'[')
}

/// Whether a byte is the one of `https`, in either case, after so many.
fn is_scheme_byte(size: usize, byte: u8) -> bool
    ensures { result ≡ is_scheme_byte size byte }
{
    match size {
        0 => matches!(byte, b'H' | b'h'),
        1 | 2 => matches!(byte, b'T' | b't'),
        3 => matches!(byte, b'P' | b'p'),
        _ => size == 4 && matches!(byte, b'S' | b's'),
    }
}

/// Whether no `_` is in the last two parts of the domain.
fn is_domain<M, T, A: Allocator>(tokenizer: &Tokenizer<'_, M, T, A>) -> bool
    ensures { result ≡ is_domain (config tokenizer.now) }
{
    tokenizer.tokenize_state.size_c == 0 || 2 <= tokenizer.tokenize_state.size_b
}

/// Whether it is known that no trail begins here, and no literal that begins with `www.`.
fn is_known<M, T, A: Allocator>(tokenizer: &Tokenizer<'_, M, T, A>) -> bool
    ensures { result ≡ is_known (config tokenizer.now) }
{
    tokenizer.point.index < tokenizer.tokenize_state.end
}

/// Where what was read is no trail.
fn no_trail<M, T, A: Allocator>(tokenizer: &mut Tokenizer<'_, M, T, A>) -> State
    ensures { Does no_trail tokenizer.old tokenizer.new result }
{
    tokenizer.tokenize_state.end = tokenizer.point.index;
    State::Nok
}

/// Where a domain may begin.
fn begin_domain<M, T: Tables, A: Allocator>(tokenizer: &mut Tokenizer<'_, M, T, A>) -> State
    ensures { Does (begin_domain (T.punctuation_of (tables_of tokenizer.old)) (bytes_of tokenizer.old)) tokenizer.old tokenizer.new result }
{
    let Some(byte) = tokenizer.current else {
        return State::Nok;
    };
    if is_control(byte) {
        return State::Nok;
    }
    let parse_state = tokenizer.parse_state;
    if is_plain(
        parse_state.tables,
        parse_state.bytes,
        tokenizer.point.index,
        byte,
    ) {
        tokenizer.tokenize_state.size = 0;
        tokenizer.tokenize_state.size_b = 0;
        tokenizer.tokenize_state.size_c = 0;
        return retry(Inline::GfmAutolinkLiteralDomainInside);
    }
    State::Nok
}

/// At an `h`.
pub fn protocol_start<M, T, A: Allocator>(tokenizer: &mut Tokenizer<'_, M, T, A>) -> State
    ensures { Does (gfm_autolink_literal_protocol_start (constructs_of tokenizer.old).gfm_autolink_literal) tokenizer.old tokenizer.new result }
{
    if !tokenizer
        .parse_state
        .options
        .constructs
        .gfm_autolink_literal
    {
        return State::Nok;
    }
    if let Some(byte) = tokenizer.previous {
        if byte.is_ascii_alphabetic() {
            return State::Nok;
        }
    }
    if tokenizer
        .enter(EventName::GfmAutolinkLiteralProtocol)
        .is_err()
    {
        return State::out_of_memory();
    }
    tokenizer.tokenize_state.size = 0;
    attempt_to(
        tokenizer,
        next(Inline::GfmAutolinkLiteralProtocolAfter),
        State::Nok,
        retry(Inline::GfmAutolinkLiteralProtocolPrefixInside),
    )
}

/// After the literal.
pub fn protocol_after<M, T, A: Allocator>(tokenizer: &mut Tokenizer<'_, M, T, A>) -> State
    requires { IsOpen (FixedName names.GfmAutolinkLiteralProtocol ∷ []) tokenizer.old }
    ensures { Does gfm_autolink_literal_protocol_after tokenizer.old tokenizer.new result }
{
    exit_to(tokenizer, EventName::GfmAutolinkLiteralProtocol, State::Ok)
}

/// In `http` or `https`.
pub fn protocol_prefix_inside<M, T, A: Allocator>(tokenizer: &mut Tokenizer<'_, M, T, A>) -> State
    ensures { Does gfm_autolink_literal_protocol_prefix_inside tokenizer.old tokenizer.new result }
{
    let Some(byte) = tokenizer.current else {
        return State::Nok;
    };
    let size = tokenizer.tokenize_state.size;
    if byte == b':' {
        if size == 4 || size == 5 {
            tokenizer.tokenize_state.size = 0;
            return consume_to(
                tokenizer,
                next(Inline::GfmAutolinkLiteralProtocolSlashesInside),
            );
        }
        return State::Nok;
    }
    if is_scheme_byte(size, byte) {
        tokenizer.tokenize_state.size = size.saturating_add(1);
        return consume_to(
            tokenizer,
            next(Inline::GfmAutolinkLiteralProtocolPrefixInside),
        );
    }
    State::Nok
}

/// In `//`, or after it.
pub fn protocol_slashes_inside<M, T: Tables, A: Allocator>(
    tokenizer: &mut Tokenizer<'_, M, T, A>,
) -> State
    ensures { Does (gfm_autolink_literal_protocol_slashes_inside
        (T.punctuation_of (tables_of tokenizer.old)) (bytes_of tokenizer.old)) tokenizer.old tokenizer.new result }
{
    if tokenizer.tokenize_state.size < 2 {
        if tokenizer.current == Some(b'/') {
            tokenizer.tokenize_state.size = tokenizer.tokenize_state.size.saturating_add(1);
            return consume_to(
                tokenizer,
                next(Inline::GfmAutolinkLiteralProtocolSlashesInside),
            );
        }
        return State::Nok;
    }
    begin_domain(tokenizer)
}

/// At a `w`.
pub fn www_start<M, T, A: Allocator>(tokenizer: &mut Tokenizer<'_, M, T, A>) -> State
    ensures { Does (gfm_autolink_literal_www_start (constructs_of tokenizer.old).gfm_autolink_literal) tokenizer.old tokenizer.new result }
{
    if !tokenizer
        .parse_state
        .options
        .constructs
        .gfm_autolink_literal
    {
        return State::Nok;
    }
    if let Some(byte) = tokenizer.previous {
        if !is_before_www(byte) {
            return State::Nok;
        }
    }
    if is_known(tokenizer) {
        return State::Nok;
    }
    if tokenizer.enter(EventName::GfmAutolinkLiteralWww).is_err() {
        return State::out_of_memory();
    }
    tokenizer.tokenize_state.size = 0;
    attempt_to(
        tokenizer,
        next(Inline::GfmAutolinkLiteralWwwAfter),
        State::Nok,
        retry(Inline::GfmAutolinkLiteralWwwPrefixInside),
    )
}

/// After the literal.
pub fn www_after<M, T, A: Allocator>(tokenizer: &mut Tokenizer<'_, M, T, A>) -> State
    requires { IsOpen (FixedName names.GfmAutolinkLiteralWww ∷ []) tokenizer.old }
    ensures { Does gfm_autolink_literal_www_after tokenizer.old tokenizer.new result }
{
    exit_to(tokenizer, EventName::GfmAutolinkLiteralWww, State::Ok)
}

/// In `www.`.
pub fn www_prefix_inside<M, T, A: Allocator>(tokenizer: &mut Tokenizer<'_, M, T, A>) -> State
    ensures { Does gfm_autolink_literal_www_prefix_inside tokenizer.old tokenizer.new result }
{
    let size = tokenizer.tokenize_state.size;
    match tokenizer.current {
        Some(b'.') => {
            if size == 3 {
                return consume_to(tokenizer, next(Inline::GfmAutolinkLiteralWwwPrefixAfter));
            }
            State::Nok
        },
        Some(b'W' | b'w') => {
            if size < 3 {
                tokenizer.tokenize_state.size = size.saturating_add(1);
                return consume_to(tokenizer, next(Inline::GfmAutolinkLiteralWwwPrefixInside));
            }
            State::Nok
        },
        _ => State::Nok,
    }
}

/// After `www.`.
pub fn www_prefix_after<M, T: Tables, A: Allocator>(tokenizer: &mut Tokenizer<'_, M, T, A>) -> State
    ensures { Does (gfm_autolink_literal_www_prefix_after
        (T.punctuation_of (tables_of tokenizer.old)) (bytes_of tokenizer.old)) tokenizer.old tokenizer.new result }
{
    begin_domain(tokenizer)
}

/// In a domain.
pub fn domain_inside<M, T: Tables, A: Allocator>(tokenizer: &mut Tokenizer<'_, M, T, A>) -> State
    ensures { Does (gfm_autolink_literal_domain_inside
        (T.punctuation_of (tables_of tokenizer.old)) (bytes_of tokenizer.old)) tokenizer.old tokenizer.new result }
{
    let Some(byte) = tokenizer.current else {
        return retry(Inline::GfmAutolinkLiteralDomainAfter);
    };
    if matches!(byte, b'.' | b'_') {
        if is_known(tokenizer) {
            return retry(Inline::GfmAutolinkLiteralDomainAtPunctuation);
        }
        return check_to(
            tokenizer,
            next(Inline::GfmAutolinkLiteralDomainAfter),
            next(Inline::GfmAutolinkLiteralDomainAtPunctuation),
            retry(Inline::GfmAutolinkLiteralTrail),
        );
    }
    let parse_state = tokenizer.parse_state;
    if byte == b'-' || goes_on(byte) {
        return consume_to(tokenizer, next(Inline::GfmAutolinkLiteralDomainInside));
    }
    if is_plain(
        parse_state.tables,
        parse_state.bytes,
        tokenizer.point.index,
        byte,
    ) {
        return consume_to(tokenizer, next(Inline::GfmAutolinkLiteralDomainInside));
    }
    retry(Inline::GfmAutolinkLiteralDomainAfter)
}

/// At a `.` or `_` of a domain.
pub fn domain_at_punctuation<M, T, A: Allocator>(tokenizer: &mut Tokenizer<'_, M, T, A>) -> State
    ensures { Does gfm_autolink_literal_domain_at_punctuation tokenizer.old tokenizer.new result }
{
    let Some(byte) = tokenizer.current else {
        return State::Nok;
    };
    if byte == b'_' {
        tokenizer.tokenize_state.size_b = 0;
        tokenizer.tokenize_state.size_c = tokenizer.point.index.saturating_add(1);
        return consume_to(tokenizer, next(Inline::GfmAutolinkLiteralDomainInside));
    }
    tokenizer.tokenize_state.size_b = tokenizer.tokenize_state.size_b.saturating_add(1);
    consume_to(tokenizer, next(Inline::GfmAutolinkLiteralDomainInside))
}

/// Where a domain ends.
pub fn domain_after<M, T, A: Allocator>(tokenizer: &mut Tokenizer<'_, M, T, A>) -> State
    ensures { Does gfm_autolink_literal_domain_after tokenizer.old tokenizer.new result }
{
    if is_domain(tokenizer) {
        tokenizer.tokenize_state.size = 0;
        tokenizer.tokenize_state.size_b = 0;
        return retry(Inline::GfmAutolinkLiteralPathInside);
    }
    tokenizer.tokenize_state.end = tokenizer.tokenize_state.size_c;
    State::Nok
}

/// After the domain.
pub fn path_inside<M, T, A: Allocator>(tokenizer: &mut Tokenizer<'_, M, T, A>) -> State
    ensures { Does gfm_autolink_literal_path_inside tokenizer.old tokenizer.new result }
{
    let Some(byte) = tokenizer.current else {
        return retry(Inline::GfmAutolinkLiteralPathAfter);
    };
    if is_hard_end(byte) {
        return retry(Inline::GfmAutolinkLiteralPathAfter);
    }
    if may_trail(byte) {
        if is_known(tokenizer) {
            return retry(Inline::GfmAutolinkLiteralPathAtPunctuation);
        }
        return check_to(
            tokenizer,
            next(Inline::GfmAutolinkLiteralPathAfter),
            next(Inline::GfmAutolinkLiteralPathAtPunctuation),
            retry(Inline::GfmAutolinkLiteralTrail),
        );
    }
    if byte == b'(' {
        tokenizer.tokenize_state.size = tokenizer.tokenize_state.size.saturating_add(1);
        return consume_to(tokenizer, next(Inline::GfmAutolinkLiteralPathInside));
    }
    consume_to(tokenizer, next(Inline::GfmAutolinkLiteralPathInside))
}

/// At punctuation that isn't cut.
pub fn path_at_punctuation<M, T, A: Allocator>(tokenizer: &mut Tokenizer<'_, M, T, A>) -> State
    ensures { Does gfm_autolink_literal_path_at_punctuation tokenizer.old tokenizer.new result }
{
    let Some(byte) = tokenizer.current else {
        return State::Nok;
    };
    if byte == b')' {
        tokenizer.tokenize_state.size_b = tokenizer.tokenize_state.size_b.saturating_add(1);
        return consume_to(tokenizer, next(Inline::GfmAutolinkLiteralPathInside));
    }
    consume_to(tokenizer, next(Inline::GfmAutolinkLiteralPathInside))
}

/// Where the literal ends.
pub fn path_after<M, T, A: Allocator>(tokenizer: &mut Tokenizer<'_, M, T, A>) -> State
    ensures { Does gfm_autolink_literal_path_after tokenizer.old tokenizer.new result }
{
    State::Ok
}

/// In what is cut, if only such follows up to the end.
pub fn trail<M, T, A: Allocator>(tokenizer: &mut Tokenizer<'_, M, T, A>) -> State
    ensures { Does gfm_autolink_literal_trail tokenizer.old tokenizer.new result }
{
    let Some(byte) = tokenizer.current else {
        return State::Ok;
    };
    if is_hard_end(byte) {
        return State::Ok;
    }
    if byte == b'&' {
        return consume_to(tokenizer, next(Inline::GfmAutolinkLiteralTrailCharRefStart));
    }
    if byte == b')' {
        if tokenizer.tokenize_state.size_b < tokenizer.tokenize_state.size {
            return no_trail(tokenizer);
        }
        return consume_to(tokenizer, next(Inline::GfmAutolinkLiteralTrail));
    }
    if byte == b']' {
        return consume_to(tokenizer, next(Inline::GfmAutolinkLiteralTrailBracketAfter));
    }
    if is_trail(byte) {
        return consume_to(tokenizer, next(Inline::GfmAutolinkLiteralTrail));
    }
    no_trail(tokenizer)
}

/// After a `]`.
pub fn trail_bracket_after<M, T, A: Allocator>(tokenizer: &mut Tokenizer<'_, M, T, A>) -> State
    ensures { Does gfm_autolink_literal_trail_bracket_after tokenizer.old tokenizer.new result }
{
    let Some(byte) = tokenizer.current else {
        return State::Ok;
    };
    if is_after_bracket(byte) {
        return State::Ok;
    }
    no_trail(tokenizer)
}

/// After an `&`.
pub fn trail_char_ref_start<M, T, A: Allocator>(tokenizer: &mut Tokenizer<'_, M, T, A>) -> State
    ensures { Does gfm_autolink_literal_trail_char_ref_start tokenizer.old tokenizer.new result }
{
    if let Some(byte) = tokenizer.current {
        if byte.is_ascii_alphanumeric() {
            return consume_to(
                tokenizer,
                next(Inline::GfmAutolinkLiteralTrailCharRefInside),
            );
        }
    }
    no_trail(tokenizer)
}

/// In letters and digits after an `&`.
pub fn trail_char_ref_inside<M, T, A: Allocator>(tokenizer: &mut Tokenizer<'_, M, T, A>) -> State
    ensures { Does gfm_autolink_literal_trail_char_ref_inside tokenizer.old tokenizer.new result }
{
    if let Some(byte) = tokenizer.current {
        if byte.is_ascii_alphanumeric() {
            return consume_to(
                tokenizer,
                next(Inline::GfmAutolinkLiteralTrailCharRefInside),
            );
        }
        if byte == b';' {
            return consume_to(tokenizer, next(Inline::GfmAutolinkLiteralTrail));
        }
    }
    no_trail(tokenizer)
}
