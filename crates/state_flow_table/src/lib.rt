//! Tables.
#![tactic(auto)]

ghost use Rattle.markdown_engine.specs.Machine.{read_with};
ghost use Rattle.engine_states.specs.declared.state.Name.TheVariants as any_states;
ghost use Rattle.engine_programs.specs.Stacks.{Does, IsOpen};
ghost use Rattle.state_table.specs.BlockTable.{block_sorts};
ghost use Rattle.state_flow_table.specs.TableStates.{table_body};

pub mod cells;
pub mod gfm_table;
pub mod heading_setext;

use markdown_engine::state::{Block, State};
use markdown_engine::tokenizer::Tokenizer;
use std::alloc::Allocator;

/// Calls a state of this crate. Any other state fails (`Nok`).
pub fn call<M, T, A: Allocator>(tokenizer: &mut Tokenizer<'_, M, T, A>, state: Block) -> State
    requires { IsOpen (block_sorts (any_states.Block state)).open_tokens tokenizer.old }
    ensures { Does (table_body (read_with tokenizer.old) state) tokenizer.old tokenizer.new result }
{
    match state {
        Block::HeadingSetextStart => heading_setext::start(tokenizer),
        Block::HeadingSetextBefore => heading_setext::before(tokenizer),
        Block::HeadingSetextInside => heading_setext::inside(tokenizer),
        Block::HeadingSetextAfter => heading_setext::after(tokenizer),
        Block::GfmTableStart => gfm_table::start(tokenizer),
        Block::GfmTableHeadRowBefore => gfm_table::head_row_before(tokenizer),
        Block::GfmTableHeadRowStart => gfm_table::head_row_start(tokenizer),
        Block::GfmTableHeadRowBreak => gfm_table::head_row_break(tokenizer),
        Block::GfmTableHeadRowData => gfm_table::head_row_data(tokenizer),
        Block::GfmTableHeadRowEscape => gfm_table::head_row_escape(tokenizer),
        Block::GfmTableHeadDelimiterStart => gfm_table::head_delimiter_start(tokenizer),
        Block::GfmTableHeadDelimiterBefore => gfm_table::head_delimiter_before(tokenizer),
        Block::GfmTableHeadDelimiterCellBefore => gfm_table::head_delimiter_cell_before(tokenizer),
        Block::GfmTableHeadDelimiterValueBefore => gfm_table::head_delimiter_value_before(
            tokenizer,
        ),
        Block::GfmTableHeadDelimiterLeftAlignmentAfter =>
            gfm_table::head_delimiter_left_alignment_after(tokenizer),
        Block::GfmTableHeadDelimiterFiller => gfm_table::head_delimiter_filler(tokenizer),
        Block::GfmTableHeadDelimiterRightAlignmentAfter =>
            gfm_table::head_delimiter_right_alignment_after(tokenizer),
        Block::GfmTableHeadDelimiterCellAfter => gfm_table::head_delimiter_cell_after(tokenizer),
        Block::GfmTableHeadDelimiterNok => gfm_table::head_delimiter_nok(tokenizer),
        Block::GfmTableBodyRowStart => gfm_table::body_row_start(tokenizer),
        Block::GfmTableBodyRowBreak => gfm_table::body_row_break(tokenizer),
        Block::GfmTableBodyRowData => gfm_table::body_row_data(tokenizer),
        Block::GfmTableBodyRowEscape => gfm_table::body_row_escape(tokenizer),
        _ => State::Nok,
    }
}
