//! HTML among text (CommonMark 6.6).
//!
//! ```text
//! html_text ::= comment | instruction | declaration | cdata | tag_close | tag_open
//! comment ::= '<!-->' | '<!--->' | '<!--' *byte '-->'
//! instruction ::= '<?' *byte '?>'
//! declaration ::= '<!' letter *(byte - '>') '>'
//! cdata ::= '<![CDATA[' *byte ']]>'
//! tag_close ::= '</' name space* '>'
//! tag_open ::= '<' name *(1*space attribute) space* ['/'] '>'
//! name ::= letter *(letter | digit | '-')
//! attribute ::= attribute_name [space* '=' space* value]
//! attribute_name ::= (letter | ':' | '_') *(letter | digit | '-' | '.' | ':' | '_')
//! value ::= '"' *(byte - '"') '"' | "'" *(byte - "'") "'" | 1*(byte - white_space - '"' - "'" - '<' - '=' - '>' - '`')
//! ```
//!
//! Data ends before each line ending and goes on after it and the spaces and tabs there.
ghost use Rattle.markdown_engine.specs.Machine.{constructs_of};
ghost use Rattle.engine_programs.specs.Stacks.{Does, IsOpen};
ghost use Rattle.state_table.specs.Table.{html_tokens};
ghost use Rattle.state_html.specs.HtmlText.{html_text_start, html_text_open, html_text_declaration_open};
ghost use Rattle.state_html.specs.HtmlText.{html_text_comment_open_inside, html_text_comment, html_text_comment_close};
ghost use Rattle.state_html.specs.HtmlText.{html_text_comment_end, html_text_cdata_open_inside, html_text_cdata};
ghost use Rattle.state_html.specs.HtmlText.{html_text_cdata_close, html_text_cdata_end, html_text_declaration};
ghost use Rattle.state_html.specs.HtmlText.{html_text_instruction, html_text_instruction_close, html_text_tag_close_start};
ghost use Rattle.state_html.specs.HtmlText.{html_text_tag_close, html_text_tag_close_between, html_text_tag_open};
ghost use Rattle.state_html.specs.HtmlText.{html_text_tag_open_between, html_text_tag_open_attribute_name};
ghost use Rattle.state_html.specs.HtmlText.{html_text_tag_open_attribute_name_after, html_text_tag_open_attribute_value_before};
ghost use Rattle.state_html.specs.HtmlText.{html_text_tag_open_attribute_value_quoted, html_text_tag_open_attribute_value_unquoted};
ghost use Rattle.state_html.specs.HtmlText.{html_text_tag_open_attribute_value_quoted_after, html_text_end};
ghost use Rattle.state_html.specs.HtmlText.{html_text_line_ending_before, html_text_line_ending_after};
ghost use Rattle.state_html.specs.HtmlText.{html_text_line_ending_after_prefix};
ghost use Rattle.std.specs.Prelude.{◌≡◌};
ghost use Rattle.state_html.specs.HtmlText.{is_prefix_byte};
ghost use Rattle.state_html.specs.HtmlText.{html_text_line};

use engine_programs::around::leave;
use engine_programs::steps::{around_to, attempt_to, consume_to, enter_to, exit_to};
use markdown_engine::event::Name as EventName;
use markdown_engine::state::{Inline, State};
use markdown_engine::tokenizer::Tokenizer;
use markdown_options::constants::HTML_CDATA_PREFIX;
use state_table::{next, retry};
use std::alloc::Allocator;

/// Whether a byte stands at an index of `CDATA[`.
fn is_prefix_byte(index: usize, byte: u8) -> bool
    ensures { result ≡ is_prefix_byte index byte }
{
    HTML_CDATA_PREFIX.get(index).copied() == Some(byte)
}

/// At a line ending, after which a state goes on.
fn at_line_ending<M, T, A: Allocator>(
    tokenizer: &mut Tokenizer<'_, M, T, A>,
    state: Inline,
) -> State
    requires { IsOpen html_tokens tokenizer.old }
    ensures { Does (html_text_line state) tokenizer.old tokenizer.new result }
{
    if tokenizer.previous == Some(b'\n') {
        return State::Nok;
    }
    if leave(tokenizer, EventName::HtmlTextData).is_err() {
        return State::out_of_memory();
    }
    attempt_to(
        tokenizer,
        next(state),
        State::Nok,
        retry(Inline::HtmlTextLineEndingBefore),
    )
}

/// At a `<`.
pub fn start<M, T, A: Allocator>(tokenizer: &mut Tokenizer<'_, M, T, A>) -> State
    ensures { Does (html_text_start (constructs_of tokenizer.old).html_text) tokenizer.old tokenizer.new result }
{
    if tokenizer.current != Some(b'<') {
        return State::Nok;
    }
    if tokenizer.parse_state.options.constructs.html_text {
        if tokenizer.enter(EventName::HtmlText).is_err() {
            return State::out_of_memory();
        }
        return enter_to(
            tokenizer,
            EventName::HtmlTextData,
            next(Inline::HtmlTextOpen),
        );
    }
    State::Nok
}

/// After the `<`.
pub fn open<M, T, A: Allocator>(tokenizer: &mut Tokenizer<'_, M, T, A>) -> State
    ensures { Does html_text_open tokenizer.old tokenizer.new result }
{
    let Some(byte) = tokenizer.current else {
        return State::Nok;
    };
    if byte == b'!' {
        return consume_to(tokenizer, next(Inline::HtmlTextDeclarationOpen));
    }
    if byte == b'/' {
        return consume_to(tokenizer, next(Inline::HtmlTextTagCloseStart));
    }
    if byte == b'?' {
        return consume_to(tokenizer, next(Inline::HtmlTextInstruction));
    }
    if byte.is_ascii_alphabetic() {
        return consume_to(tokenizer, next(Inline::HtmlTextTagOpen));
    }
    State::Nok
}

/// After `<!`.
pub fn declaration_open<M, T, A: Allocator>(tokenizer: &mut Tokenizer<'_, M, T, A>) -> State
    ensures { Does html_text_declaration_open tokenizer.old tokenizer.new result }
{
    let Some(byte) = tokenizer.current else {
        return State::Nok;
    };
    if byte == b'-' {
        return consume_to(tokenizer, next(Inline::HtmlTextCommentOpenInside));
    }
    if byte == b'[' {
        tokenizer.tokenize_state.size = 0;
        return consume_to(tokenizer, next(Inline::HtmlTextCdataOpenInside));
    }
    if byte.is_ascii_alphabetic() {
        return consume_to(tokenizer, next(Inline::HtmlTextDeclaration));
    }
    State::Nok
}

/// After `<!-`.
pub fn comment_open_inside<M, T, A: Allocator>(tokenizer: &mut Tokenizer<'_, M, T, A>) -> State
    ensures { Does html_text_comment_open_inside tokenizer.old tokenizer.new result }
{
    if tokenizer.current != Some(b'-') {
        return State::Nok;
    }
    consume_to(tokenizer, next(Inline::HtmlTextCommentEnd))
}

/// In a comment.
pub fn comment<M, T, A: Allocator>(tokenizer: &mut Tokenizer<'_, M, T, A>) -> State
    requires { IsOpen html_tokens tokenizer.old }
    ensures { Does html_text_comment tokenizer.old tokenizer.new result }
{
    match tokenizer.current {
        None => State::Nok,
        Some(b'-') => consume_to(tokenizer, next(Inline::HtmlTextCommentClose)),
        Some(b'\n') => at_line_ending(tokenizer, Inline::HtmlTextComment),
        Some(_) => consume_to(tokenizer, next(Inline::HtmlTextComment)),
    }
}

/// In a comment, after a `-`.
pub fn comment_close<M, T, A: Allocator>(tokenizer: &mut Tokenizer<'_, M, T, A>) -> State
    ensures { Does html_text_comment_close tokenizer.old tokenizer.new result }
{
    match tokenizer.current {
        None => State::Nok,
        Some(b'-') => consume_to(tokenizer, next(Inline::HtmlTextCommentEnd)),
        Some(_) => retry(Inline::HtmlTextComment),
    }
}

/// In a comment, after `--`.
pub fn comment_end<M, T, A: Allocator>(tokenizer: &mut Tokenizer<'_, M, T, A>) -> State
    ensures { Does html_text_comment_end tokenizer.old tokenizer.new result }
{
    match tokenizer.current {
        None => State::Nok,
        Some(b'>') => retry(Inline::HtmlTextEnd),
        Some(b'-') => retry(Inline::HtmlTextCommentClose),
        Some(_) => retry(Inline::HtmlTextComment),
    }
}

/// In `<![CDATA[`, after the first bracket.
pub fn cdata_open_inside<M, T, A: Allocator>(tokenizer: &mut Tokenizer<'_, M, T, A>) -> State
    ensures { Does html_text_cdata_open_inside tokenizer.old tokenizer.new result }
{
    let Some(byte) = tokenizer.current else {
        return State::Nok;
    };
    if is_prefix_byte(tokenizer.tokenize_state.size, byte) {
        tokenizer.tokenize_state.size = tokenizer.tokenize_state.size.saturating_add(1);
        tokenizer.consume();
        return if tokenizer.tokenize_state.size == HTML_CDATA_PREFIX.len() {
            next(Inline::HtmlTextCdata)
        } else {
            next(Inline::HtmlTextCdataOpenInside)
        };
    }
    State::Nok
}

/// In CDATA.
pub fn cdata<M, T, A: Allocator>(tokenizer: &mut Tokenizer<'_, M, T, A>) -> State
    requires { IsOpen html_tokens tokenizer.old }
    ensures { Does html_text_cdata tokenizer.old tokenizer.new result }
{
    match tokenizer.current {
        None => State::Nok,
        Some(b']') => consume_to(tokenizer, next(Inline::HtmlTextCdataClose)),
        Some(b'\n') => at_line_ending(tokenizer, Inline::HtmlTextCdata),
        Some(_) => consume_to(tokenizer, next(Inline::HtmlTextCdata)),
    }
}

/// In CDATA, after a `]`.
pub fn cdata_close<M, T, A: Allocator>(tokenizer: &mut Tokenizer<'_, M, T, A>) -> State
    ensures { Does html_text_cdata_close tokenizer.old tokenizer.new result }
{
    match tokenizer.current {
        None => State::Nok,
        Some(b']') => consume_to(tokenizer, next(Inline::HtmlTextCdataEnd)),
        Some(_) => retry(Inline::HtmlTextCdata),
    }
}

/// In CDATA, after `]]`.
pub fn cdata_end<M, T, A: Allocator>(tokenizer: &mut Tokenizer<'_, M, T, A>) -> State
    ensures { Does html_text_cdata_end tokenizer.old tokenizer.new result }
{
    match tokenizer.current {
        None => State::Nok,
        Some(b'>') => retry(Inline::HtmlTextEnd),
        Some(b']') => retry(Inline::HtmlTextCdataClose),
        Some(_) => retry(Inline::HtmlTextCdata),
    }
}

/// In a declaration.
pub fn declaration<M, T, A: Allocator>(tokenizer: &mut Tokenizer<'_, M, T, A>) -> State
    requires { IsOpen html_tokens tokenizer.old }
    ensures { Does html_text_declaration tokenizer.old tokenizer.new result }
{
    match tokenizer.current {
        None => State::Nok,
        Some(b'>') => retry(Inline::HtmlTextEnd),
        Some(b'\n') => at_line_ending(tokenizer, Inline::HtmlTextDeclaration),
        Some(_) => consume_to(tokenizer, next(Inline::HtmlTextDeclaration)),
    }
}

/// In an instruction.
pub fn instruction<M, T, A: Allocator>(tokenizer: &mut Tokenizer<'_, M, T, A>) -> State
    requires { IsOpen html_tokens tokenizer.old }
    ensures { Does html_text_instruction tokenizer.old tokenizer.new result }
{
    match tokenizer.current {
        None => State::Nok,
        Some(b'?') => consume_to(tokenizer, next(Inline::HtmlTextInstructionClose)),
        Some(b'\n') => at_line_ending(tokenizer, Inline::HtmlTextInstruction),
        Some(_) => consume_to(tokenizer, next(Inline::HtmlTextInstruction)),
    }
}

/// In an instruction, after a `?`.
pub fn instruction_close<M, T, A: Allocator>(tokenizer: &mut Tokenizer<'_, M, T, A>) -> State
    ensures { Does html_text_instruction_close tokenizer.old tokenizer.new result }
{
    match tokenizer.current {
        None => State::Nok,
        Some(b'>') => retry(Inline::HtmlTextEnd),
        Some(_) => retry(Inline::HtmlTextInstruction),
    }
}

/// After `</`.
pub fn tag_close_start<M, T, A: Allocator>(tokenizer: &mut Tokenizer<'_, M, T, A>) -> State
    ensures { Does html_text_tag_close_start tokenizer.old tokenizer.new result }
{
    let Some(byte) = tokenizer.current else {
        return State::Nok;
    };
    if byte.is_ascii_alphabetic() {
        return consume_to(tokenizer, next(Inline::HtmlTextTagClose));
    }
    State::Nok
}

/// In the name of a closing tag.
pub fn tag_close<M, T, A: Allocator>(tokenizer: &mut Tokenizer<'_, M, T, A>) -> State
    ensures { Does html_text_tag_close tokenizer.old tokenizer.new result }
{
    let Some(byte) = tokenizer.current else {
        return State::Nok;
    };
    if byte == b'-' || byte.is_ascii_alphanumeric() {
        return consume_to(tokenizer, next(Inline::HtmlTextTagClose));
    }
    retry(Inline::HtmlTextTagCloseBetween)
}

/// In a closing tag, after its name.
pub fn tag_close_between<M, T, A: Allocator>(tokenizer: &mut Tokenizer<'_, M, T, A>) -> State
    requires { IsOpen html_tokens tokenizer.old }
    ensures { Does html_text_tag_close_between tokenizer.old tokenizer.new result }
{
    match tokenizer.current {
        None => State::Nok,
        Some(b'\n') => at_line_ending(tokenizer, Inline::HtmlTextTagCloseBetween),
        Some(b'\t' | b' ') => consume_to(tokenizer, next(Inline::HtmlTextTagCloseBetween)),
        Some(_) => retry(Inline::HtmlTextEnd),
    }
}

/// In the name of an opening tag.
pub fn tag_open<M, T, A: Allocator>(tokenizer: &mut Tokenizer<'_, M, T, A>) -> State
    ensures { Does html_text_tag_open tokenizer.old tokenizer.new result }
{
    let Some(byte) = tokenizer.current else {
        return State::Nok;
    };
    if byte == b'-' || byte.is_ascii_alphanumeric() {
        return consume_to(tokenizer, next(Inline::HtmlTextTagOpen));
    }
    if matches!(byte, b'\t' | b'\n' | b' ' | b'/' | b'>') {
        return retry(Inline::HtmlTextTagOpenBetween);
    }
    State::Nok
}

/// In an opening tag, before an attribute or the end.
pub fn tag_open_between<M, T, A: Allocator>(tokenizer: &mut Tokenizer<'_, M, T, A>) -> State
    requires { IsOpen html_tokens tokenizer.old }
    ensures { Does html_text_tag_open_between tokenizer.old tokenizer.new result }
{
    let Some(byte) = tokenizer.current else {
        return State::Nok;
    };
    if byte == b'\n' {
        return at_line_ending(tokenizer, Inline::HtmlTextTagOpenBetween);
    }
    if matches!(byte, b'\t' | b' ') {
        return consume_to(tokenizer, next(Inline::HtmlTextTagOpenBetween));
    }
    if byte == b'/' {
        return consume_to(tokenizer, next(Inline::HtmlTextEnd));
    }
    if matches!(byte, b':' | b'_') || byte.is_ascii_alphabetic() {
        return consume_to(tokenizer, next(Inline::HtmlTextTagOpenAttributeName));
    }
    retry(Inline::HtmlTextEnd)
}

/// In the name of an attribute.
pub fn tag_open_attribute_name<M, T, A: Allocator>(tokenizer: &mut Tokenizer<'_, M, T, A>) -> State
    ensures { Does html_text_tag_open_attribute_name tokenizer.old tokenizer.new result }
{
    let Some(byte) = tokenizer.current else {
        return State::Nok;
    };
    if matches!(byte, b'-' | b'.' | b':' | b'_') || byte.is_ascii_alphanumeric() {
        return consume_to(tokenizer, next(Inline::HtmlTextTagOpenAttributeName));
    }
    retry(Inline::HtmlTextTagOpenAttributeNameAfter)
}

/// After the name of an attribute.
pub fn tag_open_attribute_name_after<M, T, A: Allocator>(
    tokenizer: &mut Tokenizer<'_, M, T, A>,
) -> State
    requires { IsOpen html_tokens tokenizer.old }
    ensures { Does html_text_tag_open_attribute_name_after tokenizer.old tokenizer.new result }
{
    match tokenizer.current {
        None => State::Nok,
        Some(b'\n') => at_line_ending(tokenizer, Inline::HtmlTextTagOpenAttributeNameAfter),
        Some(b'\t' | b' ') => consume_to(
            tokenizer,
            next(Inline::HtmlTextTagOpenAttributeNameAfter),
        ),
        Some(b'=') => consume_to(tokenizer, next(Inline::HtmlTextTagOpenAttributeValueBefore)),
        Some(_) => retry(Inline::HtmlTextTagOpenBetween),
    }
}

/// After the `=` of an attribute.
pub fn tag_open_attribute_value_before<M, T, A: Allocator>(
    tokenizer: &mut Tokenizer<'_, M, T, A>,
) -> State
    requires { IsOpen html_tokens tokenizer.old }
    ensures { Does html_text_tag_open_attribute_value_before tokenizer.old tokenizer.new result }
{
    match tokenizer.current {
        None => State::Nok,
        Some(b'<' | b'=' | b'>' | b'`') => State::Nok,
        Some(b'\n') => at_line_ending(tokenizer, Inline::HtmlTextTagOpenAttributeValueBefore),
        Some(b'\t' | b' ') => consume_to(
            tokenizer,
            next(Inline::HtmlTextTagOpenAttributeValueBefore),
        ),
        Some(b'"') => {
            tokenizer.tokenize_state.marker = b'"';
            consume_to(tokenizer, next(Inline::HtmlTextTagOpenAttributeValueQuoted))
        },
        Some(b'\'') => {
            tokenizer.tokenize_state.marker = b'\'';
            consume_to(tokenizer, next(Inline::HtmlTextTagOpenAttributeValueQuoted))
        },
        Some(_) => consume_to(
            tokenizer,
            next(Inline::HtmlTextTagOpenAttributeValueUnquoted),
        ),
    }
}

/// In a value between quotes.
pub fn tag_open_attribute_value_quoted<M, T, A: Allocator>(
    tokenizer: &mut Tokenizer<'_, M, T, A>,
) -> State
    requires { IsOpen html_tokens tokenizer.old }
    ensures { Does html_text_tag_open_attribute_value_quoted tokenizer.old tokenizer.new result }
{
    let Some(byte) = tokenizer.current else {
        return State::Nok;
    };
    if byte == tokenizer.tokenize_state.marker {
        return consume_to(
            tokenizer,
            next(Inline::HtmlTextTagOpenAttributeValueQuotedAfter),
        );
    }
    if byte == b'\n' {
        return at_line_ending(tokenizer, Inline::HtmlTextTagOpenAttributeValueQuoted);
    }
    consume_to(tokenizer, next(Inline::HtmlTextTagOpenAttributeValueQuoted))
}

/// In a value with no quotes.
pub fn tag_open_attribute_value_unquoted<M, T, A: Allocator>(
    tokenizer: &mut Tokenizer<'_, M, T, A>,
) -> State
    ensures { Does html_text_tag_open_attribute_value_unquoted tokenizer.old tokenizer.new result }
{
    match tokenizer.current {
        None => State::Nok,
        Some(b'"' | b'\'' | b'<' | b'=' | b'`') => State::Nok,
        Some(b'\t' | b'\n' | b' ' | b'>') => retry(Inline::HtmlTextTagOpenBetween),
        Some(_) => consume_to(
            tokenizer,
            next(Inline::HtmlTextTagOpenAttributeValueUnquoted),
        ),
    }
}

/// After a value between quotes.
pub fn tag_open_attribute_value_quoted_after<M, T, A: Allocator>(
    tokenizer: &mut Tokenizer<'_, M, T, A>,
) -> State
    ensures { Does html_text_tag_open_attribute_value_quoted_after tokenizer.old tokenizer.new result }
{
    match tokenizer.current {
        Some(b'\t' | b'\n' | b' ' | b'/' | b'>') => retry(Inline::HtmlTextTagOpenBetween),
        _ => State::Nok,
    }
}

/// At the `>`.
pub fn end<M, T, A: Allocator>(tokenizer: &mut Tokenizer<'_, M, T, A>) -> State
    requires { IsOpen html_tokens tokenizer.old }
    ensures { Does html_text_end tokenizer.old tokenizer.new result }
{
    if tokenizer.current != Some(b'>') {
        return State::Nok;
    }
    tokenizer.consume();
    if leave(tokenizer, EventName::HtmlTextData).is_err() {
        return State::out_of_memory();
    }
    exit_to(tokenizer, EventName::HtmlText, State::Ok)
}

/// At a line ending.
pub fn line_ending_before<M, T, A: Allocator>(tokenizer: &mut Tokenizer<'_, M, T, A>) -> State
    ensures { Does html_text_line_ending_before tokenizer.old tokenizer.new result }
{
    if tokenizer.current != Some(b'\n') {
        return State::Nok;
    }
    around_to(
        tokenizer,
        EventName::LineEnding,
        next(Inline::HtmlTextLineEndingAfter),
    )
}

/// After a line ending.
pub fn line_ending_after<M, T, A: Allocator>(tokenizer: &mut Tokenizer<'_, M, T, A>) -> State
    ensures { Does html_text_line_ending_after tokenizer.old tokenizer.new result }
{
    match tokenizer.current {
        Some(b'\t' | b' ') => {
            tokenizer.tokenize_state.size_c = usize::MAX;
            attempt_to(
                tokenizer,
                next(Inline::HtmlTextLineEndingAfterPrefix),
                State::Nok,
                retry(Inline::SpaceOrTabStart),
            )
        },
        _ => retry(Inline::HtmlTextLineEndingAfterPrefix),
    }
}

/// After a line ending and the spaces and tabs there.
pub fn line_ending_after_prefix<M, T, A: Allocator>(tokenizer: &mut Tokenizer<'_, M, T, A>) -> State
    ensures { Does html_text_line_ending_after_prefix tokenizer.old tokenizer.new result }
{
    if tokenizer.enter(EventName::HtmlTextData).is_err() {
        return State::out_of_memory();
    }
    State::Ok
}
