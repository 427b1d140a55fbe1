//! Paragraphs (CommonMark 4.8).
ghost use Rattle.std.specs.Prelude.{◌≡◌, List, OnOk, false};
ghost use Rattle.definition_inline.specs.Definition.{Definition};
ghost use Rattle.definition_page.specs.BlockPieces.{Place, leaf_block_pieces};
ghost use Rattle.definition_page.specs.InlinePieces.{Meaning};
ghost use Rattle.definition_page.specs.Page as page;
ghost use Rattle.event_grammar.specs.Trees.{Nodes, events_of};
ghost use Rattle.event_meaning.specs.Texts.{inlines_of};
ghost use Rattle.html_bytes.specs.Pieces.{in_bytes};
ghost use Rattle.html_leaves.specs.Prints.{KeepsEnding, LaysOut};
ghost use Rattle.compile_rows.specs.Columns.{AreCounted};
ghost use Rattle.compile_blocks.specs.Meant.{IsMeant};
ghost use Rattle.compile_raw.specs.Sound.{AreSound};

use crate::printer::LeafPrinter;
use crate::source::Source;
use engine_events::event::Event;
use markdown_options::Tables;
use std::alloc::{AllocError, Allocator};

impl<A: Allocator + Clone> LeafPrinter<A> {
    /// Prints a paragraph of these events. In a tight list it is its text alone.
    pub(crate) fn paragraph<T: Tables>(
        &mut self,
        source: &Source<'_, T, A>,
        tight: bool,
        inside: &[Event],
    ) -> Result<(), AllocError>
        requires { AreCounted source.now.checked.bytes.now self.old.columns }
        ensures default { KeepsEnding self.old.page self.new.page }
        ensures counted { AreCounted source.now.checked.bytes.now self.new.columns }
        ensures printed { (m : Meaning) (ds : List Definition) (place : Place) (kids : Nodes) →
            let names = T.reference_of source.now.tables.now in let bytes = source.now.checked.bytes.now in
            IsMeant names source.now ds m → place.tight ≡ tight → inside.now ≡ events_of kids → AreSound bytes kids →
            let paragraph = page.Paragraph (inlines_of names bytes false kids) in
            OnOk result (LaysOut m.compile self.old.page self.new.page (in_bytes (leaf_block_pieces m place paragraph))) }
    {
        if tight {
            return self
                .texts
                .text(&mut self.page, &mut self.columns, source, false, inside);
        }
        self.page.fresh_tag("<p>")?;
        self.texts
            .text(&mut self.page, &mut self.columns, source, false, inside)?;
        self.page.say("</p>")
    }
}
