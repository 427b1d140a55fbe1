//! Math (in neither standard).
ghost use Rattle.std.specs.Prelude.{◌≡◌, OnOk};
ghost use Rattle.definition_inline.specs.CharacterReference.{Names};
ghost use Rattle.definition_page.specs.BlockPieces.{Place, leaf_block_pieces};
ghost use Rattle.definition_page.specs.InlinePieces.{Meaning};
ghost use Rattle.event_grammar.specs.Trees.{Nodes, events_of};
ghost use Rattle.event_meaning.specs.Blocks.{math_flow_of};
ghost use Rattle.compile_rows.specs.Columns.{AreCounted};
ghost use Rattle.html_bytes.specs.Pieces.{in_bytes};
ghost use Rattle.html_leaves.specs.Prints.{KeepsEnding, LaysOut};
ghost use Rattle.compile_raw.specs.Sound.{AreSound};

use crate::code_fenced::push_fenced;
use compile_rows::Columns;
use engine_events::event::{Event, Name};
use html_leaves::Page;
use std::alloc::{AllocError, Allocator};

/// Prints math of these events, at the top of the document or in a container.
pub fn push_math_flow<A: Allocator + Clone>(
    page: &mut Page<A>,
    columns: &mut Columns,
    bytes: &[u8],
    top: bool,
    inside: &[Event],
) -> Result<(), AllocError>
    requires { AreCounted bytes.now columns.old }
    ensures default { KeepsEnding page.old page.new }
    ensures counted { AreCounted bytes.now columns.new }
    ensures printed { (names : Names) (m : Meaning) (place : Place) (ns : Nodes) → top ≡ place.top →
        AreSound bytes.now ns → inside.now ≡ events_of ns →
        let math = math_flow_of names bytes.now top ns in
        OnOk result (LaysOut m.compile page.old page.new (in_bytes (leaf_block_pieces m place math))) }
{
    page.fresh_tag("<pre><code class=\"language-math math-display\">")?;
    push_fenced(page, columns, bytes, top, Name::MathFlowFence, inside)
}
