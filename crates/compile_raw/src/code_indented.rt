//! Indented code (CommonMark 4.4).
ghost use Rattle.std.specs.Prelude.{◌≡◌, OnOk};
ghost use Rattle.definition_page.specs.BlockPieces.{Place, leaf_block_pieces};
ghost use Rattle.definition_page.specs.InlinePieces.{Meaning};
ghost use Rattle.definition_page.specs.Page.{IndentedCode};
ghost use Rattle.event_grammar.specs.Trees.{Nodes, events_of};
ghost use Rattle.event_meaning.specs.Raw.{raw_lines, raw_parts};
ghost use Rattle.compile_rows.specs.Columns.{AreCounted};
ghost use Rattle.html_bytes.specs.Pieces.{in_bytes};
ghost use Rattle.html_leaves.specs.Prints.{KeepsEnding, LaysOut};
ghost use Rattle.compile_raw.specs.Sound.{AreSound};

use crate::raw::push_code;
use compile_rows::Columns;
use engine_events::event::Event;
use html_leaves::Page;
use std::alloc::{AllocError, Allocator};

/// Prints indented code of these events.
pub fn push_code_indented<A: Allocator + Clone>(
    page: &mut Page<A>,
    columns: &mut Columns,
    bytes: &[u8],
    inside: &[Event],
) -> Result<(), AllocError>
    requires { AreCounted bytes.now columns.old }
    ensures default { KeepsEnding page.old page.new }
    ensures counted { AreCounted bytes.now columns.new }
    ensures printed { (m : Meaning) (place : Place) (ns : Nodes) → AreSound bytes.now ns → inside.now ≡ events_of ns →
        let code = IndentedCode (raw_lines (raw_parts bytes.now ns)) in
        OnOk result (LaysOut m.compile page.old page.new (in_bytes (leaf_block_pieces m place code))) }
{
    page.fresh_tag("<pre><code>")?;
    push_code(page, columns, bytes, false, inside)?;
    page.fresh_tag("</code></pre>")
}
