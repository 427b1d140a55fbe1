//! HTML blocks (CommonMark 4.6).
//!
//! ```text
//! html_flow ::= raw | comment | instruction | declaration | cdata | basic | complete
//! raw ::= '<' raw_name (space_or_tab | '>' | eol) *byte ['</' raw_name '>' *byte_of_line]
//! comment ::= '<!--' *byte ['-->' *byte_of_line], of which '<!-->' and '<!--->' are whole ones
//! instruction ::= '<?' *byte ['?>' *byte_of_line], of which '<?>' is a whole one
//! declaration ::= '<!' letter *byte ['>' *byte_of_line]
//! cdata ::= '<![CDATA[' *byte [']]>' *byte_of_line]
//! basic ::= '<' ['/'] block_name (space_or_tab | '>' | '/>' | eol) *byte, up to a blank line
//! complete ::= (open_tag | closing_tag) *space_or_tab eol *byte, up to a blank line
//! ```
//!
//! The kind is kept in `marker`; the last kind interrupts no paragraph. A block ends with its
//! container, too. Its data begins with its indent, of which `size_c` counts the columns that are left.
ghost use Rattle.std.specs.Prelude.{[], ◌∷◌};
ghost use Rattle.engine_events.specs.declared.event.Name.TheVariants as names;
ghost use Rattle.engine_programs.specs.Bodies.{FixedName};
ghost use Rattle.engine_programs.specs.Stacks.{Does, IsOpen};
ghost use Rattle.markdown_engine.specs.Machine.{bytes_of, constructs_of};
ghost use Rattle.state_flow_html.specs.HtmlFlow.{html_flow_in_line, html_flow_begin_complete, html_flow_begin_named, html_flow_begin};
ghost use Rattle.state_flow_html.specs.HtmlFlow.{html_flow_start, html_flow_before, html_flow_open};
ghost use Rattle.state_flow_html.specs.HtmlFlow.{html_flow_declaration_open, html_flow_comment_open_inside, html_flow_cdata_open_inside};
ghost use Rattle.state_flow_html.specs.HtmlFlow.{html_flow_tag_close_start, html_flow_tag_name, html_flow_basic_self_closing};
ghost use Rattle.state_flow_html.specs.HtmlFlow.{html_flow_complete_closing_tag_after, html_flow_complete_attribute_name_before};
ghost use Rattle.state_flow_html.specs.HtmlFlow.{html_flow_complete_attribute_name};
ghost use Rattle.state_flow_html.specs.HtmlFlow.{html_flow_complete_attribute_name_after, html_flow_complete_attribute_value_before};
ghost use Rattle.state_flow_html.specs.HtmlFlow.{html_flow_complete_attribute_value_quoted};
ghost use Rattle.state_flow_html.specs.HtmlFlow.{html_flow_complete_attribute_value_unquoted, html_flow_complete_attribute_value_quoted_after};
ghost use Rattle.state_flow_html.specs.HtmlFlow.{html_flow_complete_end};
ghost use Rattle.state_flow_html.specs.HtmlFlow.{html_flow_complete_after, html_flow_continuation, html_flow_continuation_start};
ghost use Rattle.state_flow_html.specs.HtmlFlow.{html_flow_continuation_start_non_lazy, html_flow_continuation_before};
ghost use Rattle.state_flow_html.specs.HtmlFlow.{html_flow_continuation_comment_inside};
ghost use Rattle.state_flow_html.specs.HtmlFlow.{html_flow_continuation_raw_tag_open, html_flow_continuation_raw_end_tag};
ghost use Rattle.state_flow_html.specs.HtmlFlow.{html_flow_continuation_cdata_inside};
ghost use Rattle.state_flow_html.specs.HtmlFlow.{html_flow_continuation_declaration_inside, html_flow_continuation_close};
ghost use Rattle.state_flow_html.specs.HtmlFlow.{html_flow_continuation_after};
ghost use Rattle.state_flow_html.specs.HtmlFlow.{html_flow_blank_line_before};

use crate::names::{
    BASIC, CDATA, COMMENT, COMPLETE, DECLARATION, INSTRUCTION, RAW, ends_before_blank,
    is_block_name, is_cdata, is_raw_name, is_short_name,
};
use engine_programs::around::leave;
use engine_programs::steps::check_to;
use markdown_engine::event::Name as EventName;
use markdown_engine::state::{Block, State};
use markdown_engine::tokenizer::Tokenizer;
use state_table::block::{next, retry};
use state_table::steps::{
    around_if, consume_if, consume_to, enter_before, exit_before, exit_block,
};
use state_table::white::indent_max;
use std::alloc::Allocator;

/// At a byte of a line, which may begin the end of a block of some kind.
fn in_line<M, T, A: Allocator>(tokenizer: &mut Tokenizer<'_, M, T, A>) -> State
    ensures { Does html_flow_in_line tokenizer.old tokenizer.new result }
{
    let state = match (tokenizer.current, tokenizer.tokenize_state.marker) {
        (Some(b'-'), COMMENT) => Block::HtmlFlowContinuationCommentInside,
        (Some(b'<'), RAW) => Block::HtmlFlowContinuationRawTagOpen,
        (Some(b'>'), DECLARATION) => Block::HtmlFlowContinuationClose,
        (Some(b'?'), INSTRUCTION) => Block::HtmlFlowContinuationDeclarationInside,
        (Some(b']'), CDATA) => Block::HtmlFlowContinuationCdataInside,
        _ => Block::HtmlFlowContinuation,
    };
    consume_to(tokenizer, state)
}

/// Where a tag on a line of its own may begin a block. It interrupts no paragraph.
fn begin_complete<M, T, A: Allocator>(tokenizer: &mut Tokenizer<'_, M, T, A>) -> State
    ensures { Does (html_flow_begin_complete (bytes_of tokenizer.old)) tokenizer.old tokenizer.new result }
{
    if tokenizer.interrupt {
        return State::Nok;
    }
    tokenizer.tokenize_state.marker = COMPLETE;
    if tokenizer.tokenize_state.seen {
        return retry(Block::HtmlFlowCompleteClosingTagAfter);
    }
    if is_raw_name(tokenizer) {
        return State::Nok;
    }
    retry(Block::HtmlFlowCompleteAttributeNameBefore)
}

/// Where a tag may begin a block.
fn begin_named<M, T, A: Allocator>(tokenizer: &mut Tokenizer<'_, M, T, A>) -> State
    ensures { Does (html_flow_begin_named (bytes_of tokenizer.old)) tokenizer.old tokenizer.new result }
{
    if is_block_name(tokenizer) {
        tokenizer.tokenize_state.marker = BASIC;
        return match tokenizer.current {
            Some(b'/') => consume_to(tokenizer, Block::HtmlFlowBasicSelfClosing),
            _ => {
                tokenizer.concrete = true;
                retry(Block::HtmlFlowContinuation)
            },
        };
    }
    begin_complete(tokenizer)
}

/// After the name of a tag.
fn begin<M, T, A: Allocator>(tokenizer: &mut Tokenizer<'_, M, T, A>) -> State
    ensures { Does (html_flow_begin (bytes_of tokenizer.old)) tokenizer.old tokenizer.new result }
{
    if tokenizer.tokenize_state.seen {
        return begin_named(tokenizer);
    }
    if is_raw_name(tokenizer) {
        return match tokenizer.current {
            Some(b'/') => State::Nok,
            _ => {
                tokenizer.tokenize_state.marker = RAW;
                tokenizer.concrete = true;
                retry(Block::HtmlFlowContinuation)
            },
        };
    }
    begin_named(tokenizer)
}

/// At the start of a line, whose indent belongs to the block.
pub fn start<M, T, A: Allocator>(tokenizer: &mut Tokenizer<'_, M, T, A>) -> State
    ensures { Does (html_flow_start (constructs_of tokenizer.old)) tokenizer.old tokenizer.new result }
{
    if !tokenizer.parse_state.options.constructs.html_flow {
        return State::Nok;
    }
    tokenizer.tokenize_state.size_c = indent_max(
        tokenizer.parse_state.options.constructs.code_indented,
    );
    if tokenizer.enter(EventName::HtmlFlow).is_err() {
        return State::out_of_memory();
    }
    enter_before(tokenizer, EventName::HtmlFlowData, Block::HtmlFlowBefore)
}

/// In the indent, or at the `<`.
pub fn before<M, T, A: Allocator>(tokenizer: &mut Tokenizer<'_, M, T, A>) -> State
    ensures { Does html_flow_before tokenizer.old tokenizer.new result }
{
    match tokenizer.current {
        Some(b'<') => consume_to(tokenizer, Block::HtmlFlowOpen),
        Some(b'\t' | b' ') => {
            if tokenizer.tokenize_state.size_c == 0 {
                return State::Nok;
            }
            tokenizer.tokenize_state.size_c = tokenizer.tokenize_state.size_c.saturating_sub(1);
            consume_to(tokenizer, Block::HtmlFlowBefore)
        },
        _ => State::Nok,
    }
}

/// After the `<`.
pub fn open<M, T, A: Allocator>(tokenizer: &mut Tokenizer<'_, M, T, A>) -> State
    ensures { Does html_flow_open tokenizer.old tokenizer.new result }
{
    let Some(byte) = tokenizer.current else {
        return State::Nok;
    };
    match byte {
        b'!' => consume_to(tokenizer, Block::HtmlFlowDeclarationOpen),
        b'/' => {
            tokenizer.tokenize_state.seen = true;
            tokenizer.consume();
            tokenizer.tokenize_state.start = tokenizer.point.index;
            next(Block::HtmlFlowTagCloseStart)
        },
        b'?' => {
            tokenizer.tokenize_state.marker = INSTRUCTION;
            tokenizer.concrete = true;
            consume_to(tokenizer, Block::HtmlFlowContinuationDeclarationInside)
        },
        _ => {
            if !byte.is_ascii_alphabetic() {
                return State::Nok;
            }
            tokenizer.tokenize_state.start = tokenizer.point.index;
            tokenizer.tokenize_state.seen = false;
            retry(Block::HtmlFlowTagName)
        },
    }
}

/// After `<!`.
pub fn declaration_open<M, T, A: Allocator>(tokenizer: &mut Tokenizer<'_, M, T, A>) -> State
    ensures { Does html_flow_declaration_open tokenizer.old tokenizer.new result }
{
    let Some(byte) = tokenizer.current else {
        return State::Nok;
    };
    match byte {
        b'-' => {
            tokenizer.tokenize_state.marker = COMMENT;
            consume_to(tokenizer, Block::HtmlFlowCommentOpenInside)
        },
        b'[' => {
            tokenizer.tokenize_state.marker = CDATA;
            tokenizer.tokenize_state.size = 0;
            consume_to(tokenizer, Block::HtmlFlowCdataOpenInside)
        },
        _ => {
            if !byte.is_ascii_alphabetic() {
                return State::Nok;
            }
            tokenizer.tokenize_state.marker = DECLARATION;
            tokenizer.concrete = true;
            consume_to(tokenizer, Block::HtmlFlowContinuationDeclarationInside)
        },
    }
}

/// After `<!-`.
pub fn comment_open_inside<M, T, A: Allocator>(tokenizer: &mut Tokenizer<'_, M, T, A>) -> State
    ensures { Does html_flow_comment_open_inside tokenizer.old tokenizer.new result }
{
    if tokenizer.current != Some(b'-') {
        return State::Nok;
    }
    tokenizer.concrete = true;
    consume_to(tokenizer, Block::HtmlFlowContinuationDeclarationInside)
}

/// In `<![CDATA[`.
pub fn cdata_open_inside<M, T, A: Allocator>(tokenizer: &mut Tokenizer<'_, M, T, A>) -> State
    ensures { Does html_flow_cdata_open_inside tokenizer.old tokenizer.new result }
{
    match tokenizer.current {
        None => State::Nok,
        Some(byte) => {
            if !is_cdata(tokenizer.tokenize_state.size, byte) {
                return State::Nok;
            }
            tokenizer.tokenize_state.size = tokenizer.tokenize_state.size.saturating_add(1);
            if tokenizer.tokenize_state.size == 6 {
                tokenizer.concrete = true;
                return consume_to(tokenizer, Block::HtmlFlowContinuation);
            }
            consume_to(tokenizer, Block::HtmlFlowCdataOpenInside)
        },
    }
}

/// After `</`.
pub fn tag_close_start<M, T, A: Allocator>(tokenizer: &mut Tokenizer<'_, M, T, A>) -> State
    ensures { Does html_flow_tag_close_start tokenizer.old tokenizer.new result }
{
    let Some(byte) = tokenizer.current else {
        return State::Nok;
    };
    if !byte.is_ascii_alphabetic() {
        return State::Nok;
    }
    consume_to(tokenizer, Block::HtmlFlowTagName)
}

/// In the name of a tag.
pub fn tag_name<M, T, A: Allocator>(tokenizer: &mut Tokenizer<'_, M, T, A>) -> State
    ensures { Does (html_flow_tag_name (bytes_of tokenizer.old)) tokenizer.old tokenizer.new result }
{
    let Some(byte) = tokenizer.current else {
        return begin(tokenizer);
    };
    match byte {
        b'\t' | b'\n' | b' ' | b'/' | b'>' => begin(tokenizer),
        _ => {
            if byte != b'-' && !byte.is_ascii_alphanumeric() {
                return State::Nok;
            }
            consume_to(tokenizer, Block::HtmlFlowTagName)
        },
    }
}

/// After the `/` of a block's tag.
pub fn basic_self_closing<M, T, A: Allocator>(tokenizer: &mut Tokenizer<'_, M, T, A>) -> State
    ensures { Does html_flow_basic_self_closing tokenizer.old tokenizer.new result }
{
    if tokenizer.current != Some(b'>') {
        return State::Nok;
    }
    tokenizer.concrete = true;
    consume_to(tokenizer, Block::HtmlFlowContinuation)
}

/// In a closing tag.
pub fn complete_closing_tag_after<M, T, A: Allocator>(
    tokenizer: &mut Tokenizer<'_, M, T, A>,
) -> State
    ensures { Does html_flow_complete_closing_tag_after tokenizer.old tokenizer.new result }
{
    match tokenizer.current {
        Some(b'\t' | b' ') => consume_to(tokenizer, Block::HtmlFlowCompleteClosingTagAfter),
        _ => retry(Block::HtmlFlowCompleteEnd),
    }
}

/// Before an attribute.
pub fn complete_attribute_name_before<M, T, A: Allocator>(
    tokenizer: &mut Tokenizer<'_, M, T, A>,
) -> State
    ensures { Does html_flow_complete_attribute_name_before tokenizer.old tokenizer.new result }
{
    let Some(byte) = tokenizer.current else {
        return retry(Block::HtmlFlowCompleteEnd);
    };
    let state = match byte {
        b'\t' | b' ' => Block::HtmlFlowCompleteAttributeNameBefore,
        b'/' => Block::HtmlFlowCompleteEnd,
        _ => {
            if byte != b':' && byte != b'_' && !byte.is_ascii_alphabetic() {
                return retry(Block::HtmlFlowCompleteEnd);
            }
            Block::HtmlFlowCompleteAttributeName
        },
    };
    consume_to(tokenizer, state)
}

/// In the name of an attribute.
pub fn complete_attribute_name<M, T, A: Allocator>(tokenizer: &mut Tokenizer<'_, M, T, A>) -> State
    ensures { Does html_flow_complete_attribute_name tokenizer.old tokenizer.new result }
{
    let Some(byte) = tokenizer.current else {
        return retry(Block::HtmlFlowCompleteAttributeNameAfter);
    };
    if matches!(byte, b'-' | b'.' | b':' | b'_') || byte.is_ascii_alphanumeric() {
        return consume_to(tokenizer, Block::HtmlFlowCompleteAttributeName);
    }
    retry(Block::HtmlFlowCompleteAttributeNameAfter)
}

/// After the name of an attribute.
pub fn complete_attribute_name_after<M, T, A: Allocator>(
    tokenizer: &mut Tokenizer<'_, M, T, A>,
) -> State
    ensures { Does html_flow_complete_attribute_name_after tokenizer.old tokenizer.new result }
{
    let state = match tokenizer.current {
        Some(b'\t' | b' ') => Block::HtmlFlowCompleteAttributeNameAfter,
        Some(b'=') => Block::HtmlFlowCompleteAttributeValueBefore,
        _ => return retry(Block::HtmlFlowCompleteAttributeNameBefore),
    };
    consume_to(tokenizer, state)
}

/// Before the value of an attribute.
pub fn complete_attribute_value_before<M, T, A: Allocator>(
    tokenizer: &mut Tokenizer<'_, M, T, A>,
) -> State
    ensures { Does html_flow_complete_attribute_value_before tokenizer.old tokenizer.new result }
{
    match tokenizer.current {
        None | Some(b'\n' | b'<' | b'=' | b'>' | b'`') => State::Nok,
        Some(b'\t' | b' ') => consume_to(tokenizer, Block::HtmlFlowCompleteAttributeValueBefore),
        Some(b'"') => {
            tokenizer.tokenize_state.marker_b = b'"';
            consume_to(tokenizer, Block::HtmlFlowCompleteAttributeValueQuoted)
        },
        Some(b'\'') => {
            tokenizer.tokenize_state.marker_b = b'\'';
            consume_to(tokenizer, Block::HtmlFlowCompleteAttributeValueQuoted)
        },
        Some(_) => retry(Block::HtmlFlowCompleteAttributeValueUnquoted),
    }
}

/// In a quoted value.
pub fn complete_attribute_value_quoted<M, T, A: Allocator>(
    tokenizer: &mut Tokenizer<'_, M, T, A>,
) -> State
    ensures { Does html_flow_complete_attribute_value_quoted tokenizer.old tokenizer.new result }
{
    match tokenizer.current {
        None | Some(b'\n') => State::Nok,
        Some(_) => {
            let state = if tokenizer.current == Some(tokenizer.tokenize_state.marker_b) {
                Block::HtmlFlowCompleteAttributeValueQuotedAfter
            } else {
                Block::HtmlFlowCompleteAttributeValueQuoted
            };
            consume_to(tokenizer, state)
        },
    }
}

/// In a value without quotes, which neither `=` nor a quote ends.
pub fn complete_attribute_value_unquoted<M, T, A: Allocator>(
    tokenizer: &mut Tokenizer<'_, M, T, A>,
) -> State
    ensures { Does html_flow_complete_attribute_value_unquoted tokenizer.old tokenizer.new result }
{
    match tokenizer.current {
        None => State::Nok,
        Some(b'\t' | b'\n' | b' ' | b'"' | b'\'' | b'<' | b'=' | b'>' | b'`') => retry(
            Block::HtmlFlowCompleteAttributeNameBefore,
        ),
        Some(_) => consume_to(tokenizer, Block::HtmlFlowCompleteAttributeValueUnquoted),
    }
}

/// After a quoted value.
pub fn complete_attribute_value_quoted_after<M, T, A: Allocator>(
    tokenizer: &mut Tokenizer<'_, M, T, A>,
) -> State
    ensures { Does html_flow_complete_attribute_value_quoted_after tokenizer.old tokenizer.new result }
{
    match tokenizer.current {
        Some(b'\t' | b' ' | b'/' | b'>') => retry(Block::HtmlFlowCompleteAttributeNameBefore),
        _ => State::Nok,
    }
}

/// At the end of a tag.
pub fn complete_end<M, T, A: Allocator>(tokenizer: &mut Tokenizer<'_, M, T, A>) -> State
    ensures { Does html_flow_complete_end tokenizer.old tokenizer.new result }
{
    consume_if(tokenizer, b'>', Block::HtmlFlowCompleteAfter, State::Nok)
}

/// After a tag.
pub fn complete_after<M, T, A: Allocator>(tokenizer: &mut Tokenizer<'_, M, T, A>) -> State
    ensures { Does html_flow_complete_after tokenizer.old tokenizer.new result }
{
    match tokenizer.current {
        None | Some(b'\n') => {
            tokenizer.concrete = true;
            retry(Block::HtmlFlowContinuation)
        },
        Some(b'\t' | b' ') => consume_to(tokenizer, Block::HtmlFlowCompleteAfter),
        Some(_) => State::Nok,
    }
}

/// In a line.
pub fn continuation<M, T, A: Allocator>(tokenizer: &mut Tokenizer<'_, M, T, A>) -> State
    requires { IsOpen (FixedName names.HtmlFlowData ∷ FixedName names.HtmlFlow ∷ []) tokenizer.old }
    ensures { Does html_flow_continuation tokenizer.old tokenizer.new result }
{
    match tokenizer.current {
        None => exit_before(
            tokenizer,
            EventName::HtmlFlowData,
            Block::HtmlFlowContinuationStart,
        ),
        Some(b'\n') => {
            if ends_before_blank(tokenizer) {
                if leave(tokenizer, EventName::HtmlFlowData).is_err() {
                    return State::out_of_memory();
                }
                return check_to(
                    tokenizer,
                    next(Block::HtmlFlowContinuationAfter),
                    next(Block::HtmlFlowContinuationStart),
                    retry(Block::HtmlFlowBlankLineBefore),
                );
            }
            exit_before(
                tokenizer,
                EventName::HtmlFlowData,
                Block::HtmlFlowContinuationStart,
            )
        },
        Some(_) => in_line(tokenizer),
    }
}

/// At a line ending, or at the end.
pub fn continuation_start<M, T, A: Allocator>(tokenizer: &mut Tokenizer<'_, M, T, A>) -> State
    ensures { Does html_flow_continuation_start tokenizer.old tokenizer.new result }
{
    check_to(
        tokenizer,
        next(Block::HtmlFlowContinuationStartNonLazy),
        next(Block::HtmlFlowContinuationAfter),
        retry(Block::NonLazyContinuationStart),
    )
}

/// At a line ending that isn't followed by a lazy line.
pub fn continuation_start_non_lazy<M, T, A: Allocator>(
    tokenizer: &mut Tokenizer<'_, M, T, A>,
) -> State
    ensures { Does html_flow_continuation_start_non_lazy tokenizer.old tokenizer.new result }
{
    around_if(
        tokenizer,
        b'\n',
        EventName::LineEnding,
        Block::HtmlFlowContinuationBefore,
        State::Nok,
    )
}

/// At the start of a line.
pub fn continuation_before<M, T, A: Allocator>(tokenizer: &mut Tokenizer<'_, M, T, A>) -> State
    ensures { Does html_flow_continuation_before tokenizer.old tokenizer.new result }
{
    match tokenizer.current {
        None | Some(b'\n') => retry(Block::HtmlFlowContinuationStart),
        Some(_) => {
            if tokenizer.enter(EventName::HtmlFlowData).is_err() {
                return State::out_of_memory();
            }
            in_line(tokenizer)
        },
    }
}

/// After a `-` of a comment.
pub fn continuation_comment_inside<M, T, A: Allocator>(
    tokenizer: &mut Tokenizer<'_, M, T, A>,
) -> State
    ensures { Does html_flow_continuation_comment_inside tokenizer.old tokenizer.new result }
{
    consume_if(
        tokenizer,
        b'-',
        Block::HtmlFlowContinuationDeclarationInside,
        retry(Block::HtmlFlowContinuation),
    )
}

/// After a `<`.
pub fn continuation_raw_tag_open<M, T, A: Allocator>(
    tokenizer: &mut Tokenizer<'_, M, T, A>,
) -> State
    ensures { Does html_flow_continuation_raw_tag_open tokenizer.old tokenizer.new result }
{
    if tokenizer.current != Some(b'/') {
        return retry(Block::HtmlFlowContinuation);
    }
    tokenizer.consume();
    tokenizer.tokenize_state.start = tokenizer.point.index;
    next(Block::HtmlFlowContinuationRawEndTag)
}

/// In the name of a closing tag.
pub fn continuation_raw_end_tag<M, T, A: Allocator>(tokenizer: &mut Tokenizer<'_, M, T, A>) -> State
    ensures { Does (html_flow_continuation_raw_end_tag (bytes_of tokenizer.old)) tokenizer.old tokenizer.new result }
{
    let Some(byte) = tokenizer.current else {
        return retry(Block::HtmlFlowContinuation);
    };
    if byte == b'>' {
        if is_raw_name(tokenizer) {
            return consume_to(tokenizer, Block::HtmlFlowContinuationClose);
        }
        return retry(Block::HtmlFlowContinuation);
    }
    if byte.is_ascii_alphabetic() && is_short_name(tokenizer) {
        return consume_to(tokenizer, Block::HtmlFlowContinuationRawEndTag);
    }
    retry(Block::HtmlFlowContinuation)
}

/// After a `]`.
pub fn continuation_cdata_inside<M, T, A: Allocator>(
    tokenizer: &mut Tokenizer<'_, M, T, A>,
) -> State
    ensures { Does html_flow_continuation_cdata_inside tokenizer.old tokenizer.new result }
{
    consume_if(
        tokenizer,
        b']',
        Block::HtmlFlowContinuationDeclarationInside,
        retry(Block::HtmlFlowContinuation),
    )
}

/// Where a `>` ends it.
pub fn continuation_declaration_inside<M, T, A: Allocator>(
    tokenizer: &mut Tokenizer<'_, M, T, A>,
) -> State
    ensures { Does html_flow_continuation_declaration_inside tokenizer.old tokenizer.new result }
{
    let state = match (tokenizer.current, tokenizer.tokenize_state.marker) {
        (Some(b'>'), _) => Block::HtmlFlowContinuationClose,
        (Some(b'-'), COMMENT) | (Some(b']'), CDATA) => Block::HtmlFlowContinuationDeclarationInside,
        _ => return retry(Block::HtmlFlowContinuation),
    };
    consume_to(tokenizer, state)
}

/// In the last line.
pub fn continuation_close<M, T, A: Allocator>(tokenizer: &mut Tokenizer<'_, M, T, A>) -> State
    requires { IsOpen (FixedName names.HtmlFlowData ∷ FixedName names.HtmlFlow ∷ []) tokenizer.old }
    ensures { Does html_flow_continuation_close tokenizer.old tokenizer.new result }
{
    match tokenizer.current {
        None | Some(b'\n') => exit_before(
            tokenizer,
            EventName::HtmlFlowData,
            Block::HtmlFlowContinuationAfter,
        ),
        Some(_) => consume_to(tokenizer, Block::HtmlFlowContinuationClose),
    }
}

/// At the end.
pub fn continuation_after<M, T, A: Allocator>(tokenizer: &mut Tokenizer<'_, M, T, A>) -> State
    requires { IsOpen (FixedName names.HtmlFlow ∷ []) tokenizer.old }
    ensures { Does html_flow_continuation_after tokenizer.old tokenizer.new result }
{
    tokenizer.concrete = false;
    exit_block(tokenizer, EventName::HtmlFlow)
}

/// At the line ending before a blank line.
pub fn blank_line_before<M, T, A: Allocator>(tokenizer: &mut Tokenizer<'_, M, T, A>) -> State
    ensures { Does html_flow_blank_line_before tokenizer.old tokenizer.new result }
{
    around_if(
        tokenizer,
        b'\n',
        EventName::LineEnding,
        Block::BlankLineStart,
        State::Nok,
    )
}
