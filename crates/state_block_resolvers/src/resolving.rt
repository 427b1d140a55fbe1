//! The resolvers of blocks.
ghost use Rattle.std.specs.Prelude.{◌≡◌, OnOk, IfErr};
ghost use Rattle.markdown_options.specs.Messages.{IsOutOfMemory};
ghost use Rattle.markdown_engine.specs.Machine.{config, read_with, KeepsParseState};
ghost use Rattle.state_block_resolvers.specs.Resolving.{resolve_gfm_table, resolve_heading_atx, resolve_heading_setext, resolve_list_item};

use markdown_engine::Message;
use markdown_engine::tokenizer::Tokenizer;
use state_edits_blocks::gfm_table::table_edits;
use state_edits_blocks::heading_atx::atx_edits;
use state_edits_blocks::heading_setext::setext_edits;
use state_edits_blocks::list_item::list_edits;
use state_resolvers::edited_events::make;
use std::alloc::Allocator;

/// Makes one text of what is between the sequences of each ATX heading (CommonMark 4.2).
pub fn resolve_heading_atx<M, T, A: Allocator + Clone>(
    tokenizer: &mut Tokenizer<'_, M, T, A>,
) -> Result<(), Message>
    ensures became { OnOk result (config tokenizer.new ≡ resolve_heading_atx (config tokenizer.old)) }
    ensures parse_state { KeepsParseState tokenizer.old tokenizer.new }
    ensures memory { IfErr result IsOutOfMemory }
{
    let alloc = tokenizer.events.allocator().clone()?;
    let edits = atx_edits(&alloc, &tokenizer.events)?;
    make(tokenizer, edits)
}

/// Makes a heading of each paragraph that has an underline (CommonMark 4.3).
pub fn resolve_heading_setext<M, T, A: Allocator + Clone>(
    tokenizer: &mut Tokenizer<'_, M, T, A>,
) -> Result<(), Message>
    ensures became { OnOk result (config tokenizer.new ≡ resolve_heading_setext (config tokenizer.old)) }
    ensures parse_state { KeepsParseState tokenizer.old tokenizer.new }
    ensures memory { IfErr result IsOutOfMemory }
{
    let alloc = tokenizer.events.allocator().clone()?;
    let edits = setext_edits(&alloc, &tokenizer.events)?;
    make(tokenizer, edits)
}

/// Makes lists of items that are side by side (CommonMark 5.3).
pub fn resolve_list_item<M, T, A: Allocator + Clone>(
    tokenizer: &mut Tokenizer<'_, M, T, A>,
) -> Result<(), Message>
    ensures became { OnOk result (config tokenizer.new ≡ resolve_list_item (read_with tokenizer.old).bytes (config tokenizer.old)) }
    ensures parse_state { KeepsParseState tokenizer.old tokenizer.new }
    ensures memory { IfErr result IsOutOfMemory }
{
    let alloc = tokenizer.events.allocator().clone()?;
    let edits = list_edits(&alloc, tokenizer.parse_state.bytes, &tokenizer.events)?;
    make(tokenizer, edits)
}

/// Makes tables, and the cells of their rows (GFM 4.10).
pub fn resolve_gfm_table<M, T, A: Allocator + Clone>(
    tokenizer: &mut Tokenizer<'_, M, T, A>,
) -> Result<(), Message>
    ensures became { OnOk result (config tokenizer.new ≡ resolve_gfm_table (config tokenizer.old)) }
    ensures parse_state { KeepsParseState tokenizer.old tokenizer.new }
    ensures memory { IfErr result IsOutOfMemory }
{
    let alloc = tokenizer.events.allocator().clone()?;
    let edits = table_edits(&alloc, &tokenizer.events)?;
    make(tokenizer, edits)
}
