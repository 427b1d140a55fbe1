//! Setext headings (CommonMark 4.3).
ghost use Rattle.std.specs.Prelude.{◌≡◌, ◌≤◌, ◌==◌, if◌then◌else◌, slice_index, List, OnOk};
ghost use Rattle.definition_inline.specs.Definition.{Definition};
ghost use Rattle.definition_page.specs.BlockPieces.{Place, leaf_block_pieces};
ghost use Rattle.definition_page.specs.InlinePieces.{Meaning};
ghost use Rattle.event_grammar.specs.Trees.{Nodes, events_of};
ghost use Rattle.event_meaning.specs.Blocks.{heading_setext_of};
ghost use Rattle.html_bytes.specs.Pieces.{in_bytes};
ghost use Rattle.html_leaves.specs.Prints.{KeepsEnding, LaysOut};
ghost use Rattle.compile_rows.specs.Columns.{AreCounted};
ghost use Rattle.compile_blocks.specs.Meant.{IsMeant};
ghost use Rattle.compile_raw.specs.Sound.{AreSound};

use crate::printer::LeafPrinter;
use crate::source::Source;
use crate::text::text_within;
use compile_levels::node::kids_in;
use compile_raw::piece::piece_in;
use engine_events::event::{Event, Name};
use markdown_options::Tables;
use std::alloc::{AllocError, Allocator};

impl<A: Allocator + Clone> LeafPrinter<A> {
    /// Prints a heading of these events.
    pub(crate) fn heading_setext<T: Tables>(
        &mut self,
        source: &Source<'_, T, A>,
        inside: &[Event],
    ) -> Result<(), AllocError>
        requires { AreCounted source.now.checked.bytes.now self.old.columns }
        ensures default { KeepsEnding self.old.page self.new.page }
        ensures counted { AreCounted source.now.checked.bytes.now self.new.columns }
        ensures printed { (m : Meaning) (ds : List Definition) (place : Place) (kids : Nodes) →
            let names = T.reference_of source.now.tables.now in let bytes = source.now.checked.bytes.now in
            IsMeant names source.now ds m → inside.now ≡ events_of kids → AreSound bytes kids →
            OnOk result (LaysOut m.compile self.old.page self.new.page (in_bytes (leaf_block_pieces m place (heading_setext_of names bytes kids)))) }
    {
        let underline = kids_in(inside, Name::HeadingSetextUnderline);
        let line = piece_in(
            source.bytes(),
            underline,
            Name::HeadingSetextUnderlineSequence,
        );
        self.heading(source, underline_rank(line), text_within(inside))
    }
}

/// The rank of a heading by its underline: 2 by hyphens.
fn underline_rank(line: &[u8]) -> u8
    ensures rank { (1 ≤ result) × (result ≤ 6) }
    ensures line { result ≡ (if slice_index line.now 0 == 45 then 2 else 1) }
{
    if !line.is_empty() && line[0] == b'-' {
        2
    } else {
        1
    }
}
