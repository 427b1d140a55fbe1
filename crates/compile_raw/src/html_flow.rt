//! HTML of the text (CommonMark 4.6).
ghost use Rattle.std.specs.Prelude.{◌≡◌, OnOk};
ghost use Rattle.definition_page.specs.BlockPieces.{Place, leaf_block_pieces};
ghost use Rattle.definition_page.specs.InlinePieces.{Meaning};
ghost use Rattle.definition_page.specs.Page.{Html};
ghost use Rattle.event_grammar.specs.Trees.{Nodes, events_of};
ghost use Rattle.event_meaning.specs.Raw.{raw_lines, raw_parts};
ghost use Rattle.html_bytes.specs.Pieces.{in_bytes};
ghost use Rattle.html_leaves.specs.Prints.{KeepsEnding, LaysOut};
ghost use Rattle.compile_raw.specs.Sound.{AreSound, HaveNoChunk};

use crate::raw::push_html_parts;
use engine_events::event::Event;
use html_leaves::Page;
use markdown_compile_options::CompileOptions;
use std::alloc::{AllocError, Allocator};

/// Prints an HTML block of these events.
pub fn push_html_flow<A: Allocator + Clone>(
    page: &mut Page<A>,
    options: &CompileOptions,
    bytes: &[u8],
    inside: &[Event],
) -> Result<(), AllocError>
    ensures default { KeepsEnding page.old page.new }
    ensures printed { (m : Meaning) (place : Place) (ns : Nodes) → m.compile ≡ options.now →
        AreSound bytes.now ns → HaveNoChunk ns → inside.now ≡ events_of ns →
        let html = Html (raw_lines (raw_parts bytes.now ns)) in
        OnOk result (LaysOut m.compile page.old page.new (in_bytes (leaf_block_pieces m place html))) }
{
    page.fresh()?;
    push_html_parts(page, options, bytes, inside)
}
