//! Fenced code (CommonMark 4.5), and math.
//!
//! ```text
//! raw_flow ::= fence *line [closing], both of one byte, '`', '~' or '$'
//! fence ::= sequence [info [space_or_tab meta]], with no '`' or '$' after a sequence of these
//! sequence ::= 3*'`' | 3*'~' | 2*'$', as long as it goes on; math has no info
//! closing ::= a sequence that is at least as long, and nothing else on the line
//! ```
//!
//! Lines lose as many columns as the fence is indented: `space_or_tab_size`, which flow keeps.
ghost use Rattle.std.specs.Prelude.{◌≡◌, [], ◌∷◌};
ghost use Rattle.engine_events.specs.declared.event.Name.TheVariants as names;
ghost use Rattle.engine_programs.specs.Bodies.{FixedName, HeldName, has};
ghost use Rattle.engine_programs.specs.Stacks.{Does, IsOpen};
ghost use Rattle.markdown_engine.specs.Machine.{bytes_of, config, constructs_of};
ghost use Rattle.state_table.specs.Words.{is_space_or_tab};
ghost use Rattle.state_flow_leaves.specs.RawFlow.{ends_meta, is_blank_ahead, is_in_backticks, is_in_marked, is_short};
ghost use Rattle.state_flow_leaves.specs.RawFlow.{raw_flow_go_on, raw_flow_opened, raw_flow_closed};
ghost use Rattle.state_flow_leaves.specs.RawFlow.{raw_flow_open, raw_flow_code, raw_flow_math, raw_flow_start};
ghost use Rattle.state_flow_leaves.specs.RawFlow.{raw_flow_before_sequence_open, raw_flow_sequence_open, raw_flow_info_before};
ghost use Rattle.state_flow_leaves.specs.RawFlow.{raw_flow_info, raw_flow_meta_before, raw_flow_meta};
ghost use Rattle.state_flow_leaves.specs.RawFlow.{raw_flow_at_non_lazy_break, raw_flow_close_start, raw_flow_before_sequence_close};
ghost use Rattle.state_flow_leaves.specs.RawFlow.{raw_flow_sequence_close, raw_flow_sequence_close_after, raw_flow_content_before};
ghost use Rattle.state_flow_leaves.specs.RawFlow.{raw_flow_content_start, raw_flow_before_content_chunk, raw_flow_content_chunk};
ghost use Rattle.state_flow_leaves.specs.RawFlow.{raw_flow_after};

use engine_programs::around::{around, leave};
use engine_programs::steps::{attempt_to, check_to, exit_to};
use markdown_engine::event::Name as EventName;
use markdown_engine::state::{Block, State};
use markdown_engine::tokenizer::Tokenizer;
use markdown_options::constants::{CODE_FENCED_SEQUENCE_SIZE_MIN, MATH_FLOW_SEQUENCE_SIZE_MIN};
use state_table::block::{next, retry};
use state_table::links::STRING;
use state_table::steps::{
    consume_to, enter_both_to, enter_data_to, enter_to, exit_before, exit_block, exit_both_before,
    exit_both_over_white, exit_over_white,
};
use state_table::white::{over_indent, white_to};
use std::alloc::Allocator;
use text_bytes::white_size;

/// Whether the byte is a backtick in the info of a fence of backticks.
fn is_in_backticks<M, T, A: Allocator>(tokenizer: &Tokenizer<'_, M, T, A>) -> bool
    ensures { result ≡ is_in_backticks (config tokenizer.now) }
{
    tokenizer.current == Some(tokenizer.tokenize_state.marker)
        && tokenizer.tokenize_state.marker == b'`'
}

/// Whether the byte is that, or a dollar in what follows a fence of dollars.
fn is_in_marked<M, T, A: Allocator>(tokenizer: &Tokenizer<'_, M, T, A>) -> bool
    ensures { result ≡ is_in_marked (config tokenizer.now) }
{
    tokenizer.current == Some(tokenizer.tokenize_state.marker)
        && matches!(tokenizer.tokenize_state.marker, b'`' | b'$')
}

/// Whether only spaces and tabs are left of the line.
fn is_blank_ahead<M, T, A: Allocator>(tokenizer: &Tokenizer<'_, M, T, A>) -> bool
    ensures { result ≡ is_blank_ahead (bytes_of tokenizer.now) (config tokenizer.now) }
{
    let (index, bytes) = (tokenizer.point.index, tokenizer.parse_state.bytes);
    let ahead: &[u8] = if bytes.len() < index {
        &[]
    } else {
        &bytes[index..]
    };
    matches!(
        ahead.get(white_size(ahead)).copied(),
        None | Some(b'\n' | b'\r')
    )
}

/// Whether a byte is a space or a tab.
fn is_white(byte: Option<u8>) -> bool
    ensures { result ≡ has is_space_or_tab byte }
{
    matches!(byte, Some(b'\t' | b' '))
}

/// Whether this is the first of the spaces and tabs at the end of a line. Only at the first of some
/// it is looked for the end of the line.
fn ends_meta<M, T, A: Allocator>(tokenizer: &Tokenizer<'_, M, T, A>) -> bool
    ensures { result ≡ ends_meta (bytes_of tokenizer.now) (config tokenizer.now) }
{
    is_white(tokenizer.current) && !is_white(tokenizer.previous) && is_blank_ahead(tokenizer)
}

/// Whether an opening fence is too short: it has at least 3 bytes, of dollars 2.
fn is_short<M, T, A: Allocator>(tokenizer: &Tokenizer<'_, M, T, A>) -> bool
    ensures { result ≡ is_short (config tokenizer.now) }
{
    let least = if tokenizer.tokenize_state.marker == b'$' {
        MATH_FLOW_SEQUENCE_SIZE_MIN
    } else {
        CODE_FENCED_SEQUENCE_SIZE_MIN
    };
    tokenizer.tokenize_state.size < least
}

/// At a line ending: goes on if the line after it isn't lazy.
fn go_on<M, T, A: Allocator>(tokenizer: &mut Tokenizer<'_, M, T, A>) -> State
    ensures { Does raw_flow_go_on tokenizer.old tokenizer.new result }
{
    check_to(
        tokenizer,
        next(Block::RawFlowAtNonLazyBreak),
        next(Block::RawFlowAfter),
        retry(Block::NonLazyContinuationStart),
    )
}

/// After the opening fence.
fn opened<M, T, A: Allocator>(tokenizer: &mut Tokenizer<'_, M, T, A>) -> State
    requires { IsOpen (HeldName 3 ∷ HeldName 2 ∷ HeldName 1 ∷ []) tokenizer.old }
    ensures { Does raw_flow_opened tokenizer.old tokenizer.new result }
{
    if is_short(tokenizer) {
        return State::Nok;
    }
    let state = if tokenizer.tokenize_state.marker == b'$' {
        Block::RawFlowMetaBefore
    } else {
        Block::RawFlowInfoBefore
    };
    exit_over_white(tokenizer, tokenizer.tokenize_state.token_3, state)
}

/// After a closing fence, which has at least as many bytes as the opening one.
fn closed<M, T, A: Allocator>(tokenizer: &mut Tokenizer<'_, M, T, A>) -> State
    requires { IsOpen (HeldName 3 ∷ HeldName 2 ∷ []) tokenizer.old }
    ensures { Does raw_flow_closed tokenizer.old tokenizer.new result }
{
    if tokenizer.tokenize_state.size_b < tokenizer.tokenize_state.size {
        return State::Nok;
    }
    exit_over_white(
        tokenizer,
        tokenizer.tokenize_state.token_3,
        Block::RawFlowSequenceCloseAfter,
    )
}

/// At the first byte of the fence.
fn open<M, T, A: Allocator>(tokenizer: &mut Tokenizer<'_, M, T, A>, marker: u8) -> State
    ensures { Does (raw_flow_open marker) tokenizer.old tokenizer.new result }
{
    tokenizer.tokenize_state.marker = marker;
    tokenizer.tokenize_state.size = 1;
    if tokenizer.enter(tokenizer.tokenize_state.token_1).is_err() {
        return State::out_of_memory();
    }
    enter_both_to(
        tokenizer,
        tokenizer.tokenize_state.token_2,
        tokenizer.tokenize_state.token_3,
        Block::RawFlowSequenceOpen,
    )
}

/// At the first byte of a fence of code.
fn code<M, T, A: Allocator>(tokenizer: &mut Tokenizer<'_, M, T, A>, marker: u8) -> State
    ensures { Does (raw_flow_code marker) tokenizer.old tokenizer.new result }
{
    tokenizer.tokenize_state.token_1 = EventName::CodeFenced;
    tokenizer.tokenize_state.token_2 = EventName::CodeFencedFence;
    tokenizer.tokenize_state.token_3 = EventName::CodeFencedFenceSequence;
    tokenizer.tokenize_state.token_4 = EventName::CodeFencedFenceInfo;
    tokenizer.tokenize_state.token_5 = EventName::CodeFencedFenceMeta;
    tokenizer.tokenize_state.token_6 = EventName::CodeFlowChunk;
    open(tokenizer, marker)
}

/// At the first byte of a fence of math.
fn math<M, T, A: Allocator>(tokenizer: &mut Tokenizer<'_, M, T, A>) -> State
    ensures { Does raw_flow_math tokenizer.old tokenizer.new result }
{
    tokenizer.tokenize_state.token_1 = EventName::MathFlow;
    tokenizer.tokenize_state.token_2 = EventName::MathFlowFence;
    tokenizer.tokenize_state.token_3 = EventName::MathFlowFenceSequence;
    tokenizer.tokenize_state.token_4 = EventName::MathFlowFenceMeta;
    tokenizer.tokenize_state.token_5 = EventName::MathFlowFenceMeta;
    tokenizer.tokenize_state.token_6 = EventName::MathFlowChunk;
    open(tokenizer, b'$')
}

/// At the first byte after the indent.
pub fn start<M, T, A: Allocator>(tokenizer: &mut Tokenizer<'_, M, T, A>) -> State
    ensures { Does raw_flow_start tokenizer.old tokenizer.new result }
{
    retry(Block::RawFlowBeforeSequenceOpen)
}

/// At the fence.
pub fn before_sequence_open<M, T, A: Allocator>(tokenizer: &mut Tokenizer<'_, M, T, A>) -> State
    ensures { Does (raw_flow_before_sequence_open (constructs_of tokenizer.old)) tokenizer.old tokenizer.new result }
{
    match tokenizer.current {
        Some(b'`') => {
            if tokenizer.parse_state.options.constructs.code_fenced {
                code(tokenizer, b'`')
            } else {
                State::Nok
            }
        },
        Some(b'~') => {
            if tokenizer.parse_state.options.constructs.code_fenced {
                code(tokenizer, b'~')
            } else {
                State::Nok
            }
        },
        Some(b'$') => {
            if tokenizer.parse_state.options.constructs.math_flow {
                math(tokenizer)
            } else {
                State::Nok
            }
        },
        _ => State::Nok,
    }
}

/// In the opening fence.
pub fn sequence_open<M, T, A: Allocator>(tokenizer: &mut Tokenizer<'_, M, T, A>) -> State
    requires { IsOpen (HeldName 3 ∷ HeldName 2 ∷ HeldName 1 ∷ []) tokenizer.old }
    ensures { Does raw_flow_sequence_open tokenizer.old tokenizer.new result }
{
    match tokenizer.current {
        None => opened(tokenizer),
        Some(_) => {
            if tokenizer.current == Some(tokenizer.tokenize_state.marker) {
                tokenizer.tokenize_state.size = tokenizer.tokenize_state.size.saturating_add(1);
                return consume_to(tokenizer, Block::RawFlowSequenceOpen);
            }
            opened(tokenizer)
        },
    }
}

/// Before the info, or at the end of the line.
pub fn info_before<M, T, A: Allocator>(tokenizer: &mut Tokenizer<'_, M, T, A>) -> State
    requires { IsOpen (HeldName 2 ∷ HeldName 1 ∷ []) tokenizer.old }
    ensures { Does raw_flow_info_before tokenizer.old tokenizer.new result }
{
    match tokenizer.current {
        None | Some(b'\n') => {
            let name = tokenizer.tokenize_state.token_2;
            if leave(tokenizer, name).is_err() {
                return State::out_of_memory();
            }
            tokenizer.concrete = true;
            go_on(tokenizer)
        },
        Some(_) => {
            if is_in_backticks(tokenizer) {
                return State::Nok;
            }
            enter_data_to(
                tokenizer,
                tokenizer.tokenize_state.token_4,
                STRING,
                Block::RawFlowInfo,
            )
        },
    }
}

/// In the info.
pub fn info<M, T, A: Allocator>(tokenizer: &mut Tokenizer<'_, M, T, A>) -> State
    requires { IsOpen (FixedName names.Data ∷ HeldName 4 ∷ HeldName 2 ∷ HeldName 1 ∷ []) tokenizer.old }
    ensures { Does raw_flow_info tokenizer.old tokenizer.new result }
{
    match tokenizer.current {
        None | Some(b'\n') => {
            exit_both_before(
                tokenizer,
                EventName::Data,
                tokenizer.tokenize_state.token_4,
                Block::RawFlowInfoBefore,
            )
        },
        Some(b'\t' | b' ') => exit_both_over_white(
            tokenizer,
            EventName::Data,
            tokenizer.tokenize_state.token_4,
            Block::RawFlowMetaBefore,
        ),
        Some(_) => {
            if is_in_backticks(tokenizer) {
                return State::Nok;
            }
            consume_to(tokenizer, Block::RawFlowInfo)
        },
    }
}

/// Before what follows the info, or at the end of the line.
pub fn meta_before<M, T, A: Allocator>(tokenizer: &mut Tokenizer<'_, M, T, A>) -> State
    ensures { Does raw_flow_meta_before tokenizer.old tokenizer.new result }
{
    match tokenizer.current {
        None | Some(b'\n') => retry(Block::RawFlowInfoBefore),
        Some(_) => {
            if is_in_marked(tokenizer) {
                return State::Nok;
            }
            enter_data_to(
                tokenizer,
                tokenizer.tokenize_state.token_5,
                STRING,
                Block::RawFlowMeta,
            )
        },
    }
}

/// In what follows the info. White space at the end of the line is no part of it.
pub fn meta<M, T, A: Allocator>(tokenizer: &mut Tokenizer<'_, M, T, A>) -> State
    requires { IsOpen (FixedName names.Data ∷ HeldName 5 ∷ HeldName 2 ∷ HeldName 1 ∷ []) tokenizer.old }
    ensures { Does (raw_flow_meta (bytes_of tokenizer.old)) tokenizer.old tokenizer.new result }
{
    match tokenizer.current {
        None | Some(b'\n') => {
            exit_both_before(
                tokenizer,
                EventName::Data,
                tokenizer.tokenize_state.token_5,
                Block::RawFlowInfoBefore,
            )
        },
        Some(_) => {
            if ends_meta(tokenizer) {
                return exit_both_over_white(
                    tokenizer,
                    EventName::Data,
                    tokenizer.tokenize_state.token_5,
                    Block::RawFlowInfoBefore,
                );
            }
            if is_in_marked(tokenizer) {
                return State::Nok;
            }
            consume_to(tokenizer, Block::RawFlowMeta)
        },
    }
}

/// At a line ending that isn't followed by a lazy line, or at the end of the text.
pub fn at_non_lazy_break<M, T, A: Allocator>(tokenizer: &mut Tokenizer<'_, M, T, A>) -> State
    ensures { Does raw_flow_at_non_lazy_break tokenizer.old tokenizer.new result }
{
    match tokenizer.current {
        Some(b'\n') => retry(Block::RawFlowContentBefore),
        _ => retry(Block::RawFlowAfter),
    }
}

/// At the start of a line that may be a closing fence.
pub fn close_start<M, T, A: Allocator>(tokenizer: &mut Tokenizer<'_, M, T, A>) -> State
    ensures { Does (raw_flow_close_start (constructs_of tokenizer.old)) tokenizer.old tokenizer.new result }
{
    if tokenizer.enter(tokenizer.tokenize_state.token_2).is_err() {
        return State::out_of_memory();
    }
    over_indent(tokenizer, Block::RawFlowBeforeSequenceClose)
}

/// At a closing fence.
pub fn before_sequence_close<M, T, A: Allocator>(tokenizer: &mut Tokenizer<'_, M, T, A>) -> State
    ensures { Does raw_flow_before_sequence_close tokenizer.old tokenizer.new result }
{
    match tokenizer.current {
        None => State::Nok,
        Some(_) => {
            if tokenizer.current == Some(tokenizer.tokenize_state.marker) {
                tokenizer.tokenize_state.size_b = 1;
                return enter_to(
                    tokenizer,
                    tokenizer.tokenize_state.token_3,
                    Block::RawFlowSequenceClose,
                );
            }
            State::Nok
        },
    }
}

/// In a closing fence.
pub fn sequence_close<M, T, A: Allocator>(tokenizer: &mut Tokenizer<'_, M, T, A>) -> State
    requires { IsOpen (HeldName 3 ∷ HeldName 2 ∷ []) tokenizer.old }
    ensures { Does raw_flow_sequence_close tokenizer.old tokenizer.new result }
{
    match tokenizer.current {
        None => closed(tokenizer),
        Some(_) => {
            if tokenizer.current == Some(tokenizer.tokenize_state.marker) {
                tokenizer.tokenize_state.size_b = tokenizer.tokenize_state.size_b.saturating_add(1);
                return consume_to(tokenizer, Block::RawFlowSequenceClose);
            }
            closed(tokenizer)
        },
    }
}

/// After a closing fence.
pub fn sequence_close_after<M, T, A: Allocator>(tokenizer: &mut Tokenizer<'_, M, T, A>) -> State
    requires { IsOpen (HeldName 2 ∷ []) tokenizer.old }
    ensures { Does raw_flow_sequence_close_after tokenizer.old tokenizer.new result }
{
    match tokenizer.current {
        None | Some(b'\n') => exit_to(tokenizer, tokenizer.tokenize_state.token_2, State::Ok),
        Some(_) => State::Nok,
    }
}

/// At the line ending before a closing fence or content.
pub fn content_before<M, T, A: Allocator>(tokenizer: &mut Tokenizer<'_, M, T, A>) -> State
    ensures { Does raw_flow_content_before tokenizer.old tokenizer.new result }
{
    if tokenizer.current != Some(b'\n') {
        return State::Nok;
    }
    if around(tokenizer, EventName::LineEnding).is_err() {
        return State::out_of_memory();
    }
    attempt_to(
        tokenizer,
        next(Block::RawFlowAfter),
        next(Block::RawFlowContentStart),
        next(Block::RawFlowCloseStart),
    )
}

/// At the start of a line of content.
pub fn content_start<M, T, A: Allocator>(tokenizer: &mut Tokenizer<'_, M, T, A>) -> State
    ensures { Does raw_flow_content_start tokenizer.old tokenizer.new result }
{
    if tokenizer.tokenize_state.space_or_tab_size == 0 {
        return retry(Block::RawFlowBeforeContentChunk);
    }
    match tokenizer.current {
        Some(b'\t' | b' ') => white_to(
            tokenizer,
            tokenizer.tokenize_state.space_or_tab_size,
            Block::RawFlowBeforeContentChunk,
        ),
        _ => retry(Block::RawFlowBeforeContentChunk),
    }
}

/// Before content.
pub fn before_content_chunk<M, T, A: Allocator>(tokenizer: &mut Tokenizer<'_, M, T, A>) -> State
    ensures { Does raw_flow_before_content_chunk tokenizer.old tokenizer.new result }
{
    match tokenizer.current {
        None | Some(b'\n') => go_on(tokenizer),
        Some(_) => enter_to(
            tokenizer,
            tokenizer.tokenize_state.token_6,
            Block::RawFlowContentChunk,
        ),
    }
}

/// In content.
pub fn content_chunk<M, T, A: Allocator>(tokenizer: &mut Tokenizer<'_, M, T, A>) -> State
    requires { IsOpen (HeldName 6 ∷ HeldName 1 ∷ []) tokenizer.old }
    ensures { Does raw_flow_content_chunk tokenizer.old tokenizer.new result }
{
    match tokenizer.current {
        None | Some(b'\n') => exit_before(
            tokenizer,
            tokenizer.tokenize_state.token_6,
            Block::RawFlowBeforeContentChunk,
        ),
        Some(_) => consume_to(tokenizer, Block::RawFlowContentChunk),
    }
}

/// At the end.
pub fn after<M, T, A: Allocator>(tokenizer: &mut Tokenizer<'_, M, T, A>) -> State
    requires { IsOpen (HeldName 1 ∷ []) tokenizer.old }
    ensures { Does raw_flow_after tokenizer.old tokenizer.new result }
{
    tokenizer.concrete = false;
    exit_block(tokenizer, tokenizer.tokenize_state.token_1)
}
