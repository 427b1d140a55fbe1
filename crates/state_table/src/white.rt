//! Spaces and tabs between the parts of blocks.
ghost use Rattle.std.specs.Prelude.{◌≡◌};
ghost use Rattle.engine_programs.specs.Stacks.{Does};
ghost use Rattle.markdown_engine.specs.Machine.{config, constructs_of};
ghost use Rattle.state_table.specs.BlockWords.{indent_max, is_indented, over_indent, over_white, white_to};

use crate::block::{next, part, retry};
use engine_programs::steps::attempt_to;
use markdown_engine::state::{Block, Inline, State};
use markdown_engine::tokenizer::Tokenizer;
use markdown_options::constants::TAB_SIZE;
use std::alloc::Allocator;

/// How many columns the first line of a block may be indented (CommonMark 2.2): 3 if more begin
/// indented code.
pub fn indent_max(code_indented: bool) -> usize
    ensures { result ≡ indent_max code_indented }
{
    if code_indented {
        TAB_SIZE - 1
    } else {
        usize::MAX
    }
}

/// Whether the indent of the line, which flow keeps in `space_or_tab_size`, is that of code.
pub fn is_indented<M, T, A: Allocator>(tokenizer: &Tokenizer<'_, M, T, A>) -> bool
    ensures { result ≡ is_indented (constructs_of tokenizer.now) (config tokenizer.now) }
{
    let most = indent_max(tokenizer.parse_state.options.constructs.code_indented);
    most < tokenizer.tokenize_state.space_or_tab_size
}

/// Over spaces and tabs, of at most `most` columns, and then to a state. Fails if there are none.
pub fn white_to<M, T, A: Allocator>(
    tokenizer: &mut Tokenizer<'_, M, T, A>,
    most: usize,
    state: Block,
) -> State
    ensures { Does (white_to most state) tokenizer.old tokenizer.new result }
{
    tokenizer.tokenize_state.size_c = most;
    attempt_to(
        tokenizer,
        next(state),
        State::Nok,
        part(Inline::SpaceOrTabStart),
    )
}

/// Over spaces and tabs, of at most `most` columns, if there are any, and then to a state.
pub fn over_white<M, T, A: Allocator>(
    tokenizer: &mut Tokenizer<'_, M, T, A>,
    most: usize,
    state: Block,
) -> State
    ensures { Does (over_white most state) tokenizer.old tokenizer.new result }
{
    match tokenizer.current {
        Some(b'\t' | b' ') => white_to(tokenizer, most, state),
        _ => retry(state),
    }
}

/// Over the indent of a block's first line, if there is one, and then to a state.
pub fn over_indent<M, T, A: Allocator>(
    tokenizer: &mut Tokenizer<'_, M, T, A>,
    state: Block,
) -> State
    ensures { Does (over_indent (constructs_of tokenizer.old) state) tokenizer.old tokenizer.new result }
{
    let most = indent_max(tokenizer.parse_state.options.constructs.code_indented);
    over_white(tokenizer, most, state)
}
