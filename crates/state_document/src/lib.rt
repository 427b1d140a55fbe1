//! The lines of a text: containers, and the flow in them.
#![tactic(auto)]

ghost use Rattle.engine_states.specs.declared.state.Name.TheVariants as any_states;
ghost use Rattle.markdown_engine.specs.Machine.{read_with};
ghost use Rattle.engine_programs.specs.Stacks.{IsOpen};
ghost use Rattle.state_table.specs.BlockTable.{block_sorts};
ghost use Rattle.state_document.specs.DocumentStates.{document_body};
ghost use Rattle.state_document.specs.Views.{Sees};

pub mod blocks;
pub mod document;
pub mod line_reader;

use crate::blocks::Blocks;
use crate::line_reader::LineReader;
use markdown_engine::state::{Block, State};
use markdown_engine::tokenizer::Tokenizer;
use markdown_options::Tables;
use std::alloc::Allocator;

/// Calls a state of this crate. Any other state fails (`Nok`).
pub fn call<R: LineReader<T>, T: Tables, A: Allocator>(
    tokenizer: &mut Tokenizer<'_, Blocks<R>, T, A>,
    state: Block,
) -> State
    requires open { IsOpen (block_sorts (any_states.Block state)).open_tokens tokenizer.old }
    requires holds { R.holds (read_with tokenizer.old) (R.seen tokenizer.old.machine.reader) }
    ensures { Sees (λ machine. R.seen machine.reader) (document_body R.calls (read_with tokenizer.old) state) tokenizer.old tokenizer.new result }
{
    match state {
        Block::DocumentStart => document::start(tokenizer),
        Block::DocumentBeforeFrontmatter => document::before_frontmatter(tokenizer),
        Block::DocumentContainerExistingBefore => document::container_existing_before(tokenizer),
        Block::DocumentContainerExistingAfter => document::container_existing_after(tokenizer),
        Block::DocumentContainerNewBefore => document::container_new_before(tokenizer),
        Block::DocumentContainerNewBeforeNotBlockQuote =>
            document::container_new_before_not_block_quote(tokenizer),
        Block::DocumentContainerNewBeforeNotList => document::container_new_before_not_list(
            tokenizer,
        ),
        Block::DocumentContainerNewBeforeNotGfmFootnoteDefinition =>
            document::container_new_before_not_gfm_footnote_definition(tokenizer),
        Block::DocumentContainerNewAfter => document::container_new_after(tokenizer),
        Block::DocumentContainersAfter => document::containers_after(tokenizer),
        Block::DocumentFlowInside => document::flow_inside(tokenizer),
        Block::DocumentFlowEnd => document::flow_end(tokenizer),
        _ => State::Nok,
    }
}
