//! Blocks that hold no text but their own: headings, breaks, code, math, and what lines share.
#![tactic(auto)]

ghost use Rattle.markdown_engine.specs.Machine.{read_with};
ghost use Rattle.engine_states.specs.declared.state.Name.TheVariants as any_states;
ghost use Rattle.engine_programs.specs.Stacks.{Does, IsOpen};
ghost use Rattle.state_table.specs.BlockTable.{block_sorts};
ghost use Rattle.state_flow_leaves.specs.LeavesStates.{leaves_body};

pub mod blank_line;
pub mod code_indented;
pub mod heading_atx;
pub mod partial_non_lazy_continuation;
pub mod raw_flow;
pub mod thematic_break;

use markdown_engine::state::{Block, State};
use markdown_engine::tokenizer::Tokenizer;
use std::alloc::Allocator;

/// Calls a state of this crate. Any other state fails (`Nok`).
pub fn call<M, T, A: Allocator>(tokenizer: &mut Tokenizer<'_, M, T, A>, state: Block) -> State
    requires { IsOpen (block_sorts (any_states.Block state)).open_tokens tokenizer.old }
    ensures { Does (leaves_body (read_with tokenizer.old) state) tokenizer.old tokenizer.new result }
{
    match state {
        Block::BlankLineStart => blank_line::start(tokenizer),
        Block::BlankLineAfter => blank_line::after(tokenizer),
        Block::NonLazyContinuationStart => partial_non_lazy_continuation::start(tokenizer),
        Block::NonLazyContinuationAfter => partial_non_lazy_continuation::after(tokenizer),
        Block::ThematicBreakStart => thematic_break::start(tokenizer),
        Block::ThematicBreakBefore => thematic_break::before(tokenizer),
        Block::ThematicBreakAtBreak => thematic_break::at_break(tokenizer),
        Block::ThematicBreakSequence => thematic_break::sequence(tokenizer),
        Block::HeadingAtxStart => heading_atx::start(tokenizer),
        Block::HeadingAtxBefore => heading_atx::before(tokenizer),
        Block::HeadingAtxSequenceOpen => heading_atx::sequence_open(tokenizer),
        Block::HeadingAtxAtBreak => heading_atx::at_break(tokenizer),
        Block::HeadingAtxSequenceFurther => heading_atx::sequence_further(tokenizer),
        Block::HeadingAtxData => heading_atx::data(tokenizer),
        Block::CodeIndentedStart => code_indented::start(tokenizer),
        Block::CodeIndentedAtBreak => code_indented::at_break(tokenizer),
        Block::CodeIndentedInside => code_indented::inside(tokenizer),
        Block::CodeIndentedAfter => code_indented::after(tokenizer),
        Block::CodeIndentedFurtherStart => code_indented::further_start(tokenizer),
        Block::CodeIndentedFurtherBegin => code_indented::further_begin(tokenizer),
        Block::CodeIndentedFurtherAfter => code_indented::further_after(tokenizer),
        Block::RawFlowStart => raw_flow::start(tokenizer),
        Block::RawFlowBeforeSequenceOpen => raw_flow::before_sequence_open(tokenizer),
        Block::RawFlowSequenceOpen => raw_flow::sequence_open(tokenizer),
        Block::RawFlowInfoBefore => raw_flow::info_before(tokenizer),
        Block::RawFlowInfo => raw_flow::info(tokenizer),
        Block::RawFlowMetaBefore => raw_flow::meta_before(tokenizer),
        Block::RawFlowMeta => raw_flow::meta(tokenizer),
        Block::RawFlowAtNonLazyBreak => raw_flow::at_non_lazy_break(tokenizer),
        Block::RawFlowCloseStart => raw_flow::close_start(tokenizer),
        Block::RawFlowBeforeSequenceClose => raw_flow::before_sequence_close(tokenizer),
        Block::RawFlowSequenceClose => raw_flow::sequence_close(tokenizer),
        Block::RawFlowSequenceCloseAfter => raw_flow::sequence_close_after(tokenizer),
        Block::RawFlowContentBefore => raw_flow::content_before(tokenizer),
        Block::RawFlowContentStart => raw_flow::content_start(tokenizer),
        Block::RawFlowBeforeContentChunk => raw_flow::before_content_chunk(tokenizer),
        Block::RawFlowContentChunk => raw_flow::content_chunk(tokenizer),
        Block::RawFlowAfter => raw_flow::after(tokenizer),
        _ => State::Nok,
    }
}
