//! Blank lines (CommonMark 4.9).
//!
//! ```text
//! blank_line ::= *space_or_tab
//! ```
//!
//! The caller reads the line ending.
ghost use Rattle.engine_programs.specs.Stacks.{Does};
ghost use Rattle.state_flow_leaves.specs.BlankLine.{blank_line_start, blank_line_after};

use markdown_engine::state::{Block, State};
use markdown_engine::tokenizer::Tokenizer;
use state_table::white::over_white;
use std::alloc::Allocator;

/// At the start of a line.
pub fn start<M, T, A: Allocator>(tokenizer: &mut Tokenizer<'_, M, T, A>) -> State
    ensures { Does blank_line_start tokenizer.old tokenizer.new result }
{
    over_white(tokenizer, usize::MAX, Block::BlankLineAfter)
}

/// After spaces and tabs.
pub fn after<M, T, A: Allocator>(tokenizer: &mut Tokenizer<'_, M, T, A>) -> State
    ensures { Does blank_line_after tokenizer.old tokenizer.new result }
{
    match tokenizer.current {
        None | Some(b'\n') => State::Ok,
        Some(_) => State::Nok,
    }
}
