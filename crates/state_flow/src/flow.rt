//! Blocks of a text.
//!
//! ```text
//! flow ::= *(blank_line | block) line_ending
//! ```
//!
//! In a line that begins with white space, a blank line, indented code and HTML are tried first. Then the first
//! byte after the indent tells which blocks may begin. Tables and content are tried last.
ghost use Rattle.engine_programs.specs.Stacks.{Does};
ghost use Rattle.markdown_engine.specs.Machine.{constructs_of};
ghost use Rattle.state_flow.specs.Flow.{block_or, block_or_table, flow_by_byte, flow_start, flow_blank_line_before};
ghost use Rattle.state_flow.specs.Flow.{flow_before_code_indented, flow_before_raw, flow_before_html};
ghost use Rattle.state_flow.specs.Flow.{flow_before_heading_atx, flow_before_heading_setext, flow_before_thematic_break};
ghost use Rattle.state_flow.specs.Flow.{flow_before_gfm_table, flow_before_content, flow_blank_line_after};
ghost use Rattle.state_flow.specs.Flow.{flow_after};

use engine_programs::steps::attempt_to;
use markdown_engine::event::Name as EventName;
use markdown_engine::state::{Block, Inline, State};
use markdown_engine::tokenizer::Tokenizer;
use state_table::block::{next, part, retry};
use state_table::steps::{around_if, around_to};
use state_table::white::is_indented;
use std::alloc::Allocator;

/// Tries the block that begins with `start`. If there is none, goes on with the other state from here.
fn block_or<M, T, A: Allocator>(
    tokenizer: &mut Tokenizer<'_, M, T, A>,
    start: Block,
    other: Block,
) -> State
    ensures { Does (block_or start other) tokenizer.old tokenizer.new result }
{
    attempt_to(tokenizer, next(Block::FlowAfter), next(other), retry(start))
}

/// Tries a block, then a table and content.
fn block_or_table<M, T, A: Allocator>(tokenizer: &mut Tokenizer<'_, M, T, A>, start: Block) -> State
    ensures { Does (block_or_table start) tokenizer.old tokenizer.new result }
{
    block_or(tokenizer, start, Block::FlowBeforeGfmTable)
}

/// After the indent: the first byte tells which blocks may begin. HTML, whose indent is its own, was
/// tried before.
fn by_byte<M, T, A: Allocator>(tokenizer: &mut Tokenizer<'_, M, T, A>) -> State
    ensures { Does flow_by_byte tokenizer.old tokenizer.new result }
{
    let state = match tokenizer.current {
        Some(b'$' | b'`' | b'~') => return block_or_table(tokenizer, Block::RawFlowStart),
        Some(b'#') => Block::FlowBeforeHeadingAtx,
        Some(b'-' | b'=') => Block::FlowBeforeHeadingSetext,
        Some(b'*' | b'_') => Block::FlowBeforeThematicBreak,
        _ => Block::FlowBeforeGfmTable,
    };
    retry(state)
}

/// At the start of a line. A line that begins with no white space isn't blank, and has no indent.
pub fn start<M, T, A: Allocator>(tokenizer: &mut Tokenizer<'_, M, T, A>) -> State
    ensures { Does flow_start tokenizer.old tokenizer.new result }
{
    match tokenizer.current {
        None => State::Ok,
        Some(b'\t' | b'\n' | b' ') => retry(Block::FlowBlankLineBefore),
        Some(byte) => {
            tokenizer.tokenize_state.space_or_tab_size = 0;
            if byte == b'<' {
                return retry(Block::FlowBeforeHtml);
            }
            by_byte(tokenizer)
        },
    }
}

/// Before a blank line.
pub fn blank_line_before<M, T, A: Allocator>(tokenizer: &mut Tokenizer<'_, M, T, A>) -> State
    ensures { Does flow_blank_line_before tokenizer.old tokenizer.new result }
{
    attempt_to(
        tokenizer,
        next(Block::FlowBlankLineAfter),
        next(Block::FlowBeforeCodeIndented),
        retry(Block::BlankLineStart),
    )
}

/// Before indented code.
pub fn before_code_indented<M, T, A: Allocator>(tokenizer: &mut Tokenizer<'_, M, T, A>) -> State
    ensures { Does flow_before_code_indented tokenizer.old tokenizer.new result }
{
    block_or(tokenizer, Block::CodeIndentedStart, Block::FlowBeforeHtml)
}

/// At the indent of a line, and then after it, where fenced code or math may begin.
pub fn before_raw<M, T, A: Allocator>(tokenizer: &mut Tokenizer<'_, M, T, A>) -> State
    ensures { Does (flow_before_raw (constructs_of tokenizer.old)) tokenizer.old tokenizer.new result }
{
    match tokenizer.current {
        Some(b'\t' | b' ') => {
            tokenizer.tokenize_state.size_c = usize::MAX;
            attempt_to(
                tokenizer,
                next(Block::FlowBeforeRaw),
                next(Block::FlowBeforeGfmTable),
                part(Inline::SpaceOrTabStart),
            )
        },
        _ => {
            tokenizer.tokenize_state.space_or_tab_size = usize::MAX
                - tokenizer.tokenize_state.size_c;
            if is_indented(tokenizer) {
                return retry(Block::FlowBeforeGfmTable);
            }
            by_byte(tokenizer)
        },
    }
}

/// Before HTML, which reads its indent.
pub fn before_html<M, T, A: Allocator>(tokenizer: &mut Tokenizer<'_, M, T, A>) -> State
    ensures { Does flow_before_html tokenizer.old tokenizer.new result }
{
    match tokenizer.current {
        Some(b'\t' | b' ') => block_or(tokenizer, Block::HtmlFlowStart, Block::FlowBeforeRaw),
        _ => block_or_table(tokenizer, Block::HtmlFlowStart),
    }
}

/// Before an ATX heading.
pub fn before_heading_atx<M, T, A: Allocator>(tokenizer: &mut Tokenizer<'_, M, T, A>) -> State
    ensures { Does flow_before_heading_atx tokenizer.old tokenizer.new result }
{
    block_or_table(tokenizer, Block::HeadingAtxStart)
}

/// Before an underline.
pub fn before_heading_setext<M, T, A: Allocator>(tokenizer: &mut Tokenizer<'_, M, T, A>) -> State
    ensures { Does flow_before_heading_setext tokenizer.old tokenizer.new result }
{
    match tokenizer.current {
        Some(b'-') => block_or(
            tokenizer,
            Block::HeadingSetextStart,
            Block::FlowBeforeThematicBreak,
        ),
        _ => block_or_table(tokenizer, Block::HeadingSetextStart),
    }
}

/// Before a thematic break.
pub fn before_thematic_break<M, T, A: Allocator>(tokenizer: &mut Tokenizer<'_, M, T, A>) -> State
    ensures { Does flow_before_thematic_break tokenizer.old tokenizer.new result }
{
    block_or_table(tokenizer, Block::ThematicBreakStart)
}

/// Before a row of a table.
pub fn before_gfm_table<M, T, A: Allocator>(tokenizer: &mut Tokenizer<'_, M, T, A>) -> State
    ensures { Does flow_before_gfm_table tokenizer.old tokenizer.new result }
{
    block_or(tokenizer, Block::GfmTableStart, Block::FlowBeforeContent)
}

/// Before a line of content.
pub fn before_content<M, T, A: Allocator>(tokenizer: &mut Tokenizer<'_, M, T, A>) -> State
    ensures { Does flow_before_content tokenizer.old tokenizer.new result }
{
    match tokenizer.current {
        None => State::Ok,
        Some(_) => attempt_to(
            tokenizer,
            next(Block::FlowAfter),
            State::Nok,
            retry(Block::ContentChunkStart),
        ),
    }
}

/// At the end of a blank line.
pub fn blank_line_after<M, T, A: Allocator>(tokenizer: &mut Tokenizer<'_, M, T, A>) -> State
    ensures { Does flow_blank_line_after tokenizer.old tokenizer.new result }
{
    if tokenizer.current != Some(b'\n') {
        return State::Ok;
    }
    tokenizer.interrupt = false;
    around_to(tokenizer, EventName::BlankLineEnding, Block::FlowStart)
}

/// After a block, or a line of content.
pub fn after<M, T, A: Allocator>(tokenizer: &mut Tokenizer<'_, M, T, A>) -> State
    ensures { Does flow_after tokenizer.old tokenizer.new result }
{
    around_if(
        tokenizer,
        b'\n',
        EventName::LineEnding,
        Block::FlowStart,
        State::Ok,
    )
}
