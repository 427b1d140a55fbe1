//! ATX headings (CommonMark 4.2).
ghost use Rattle.std.specs.Prelude.{◌≡◌, ◌≤◌, ◌∷◌, List, OnOk, false, true};
ghost use Rattle.definition_inline.specs.Definition.{Definition};
ghost use Rattle.definition_page.specs.BlockPieces.{Place, heading_start, leaf_block_pieces};
ghost use Rattle.definition_page.specs.InlinePieces.{Meaning, inline_pieces};
ghost use Rattle.definition_page.specs.Page as page;
ghost use Rattle.event_grammar.specs.Trees.{Nodes, events_of};
ghost use Rattle.event_meaning.specs.Blocks.{heading_atx_of};
ghost use Rattle.event_meaning.specs.Children.{text_in};
ghost use Rattle.event_meaning.specs.Texts.{inlines_of};
ghost use Rattle.event_grammar.specs.Facts.{is_size};
ghost use Rattle.engine_events.specs.declared.event.Name.TheVariants as n;
ghost use Rattle.html_bytes.specs.Pieces.{in_bytes};
ghost use Rattle.html_leaves.specs.Prints.{KeepsEnding, LaysOut};
ghost use Rattle.compile_rows.specs.Columns.{AreCounted};
ghost use Rattle.compile_blocks.specs.Meant.{IsMeant};
ghost use Rattle.compile_raw.specs.Sound.{AreSound};

use crate::printer::LeafPrinter;
use crate::source::Source;
use crate::text::text_within;
use compile_raw::piece::piece_in;
use engine_events::event::{Event, Name};
use markdown_options::Tables;
use std::alloc::{AllocError, Allocator};

impl<A: Allocator + Clone> LeafPrinter<A> {
    /// Prints a heading of these events, whose rank is the size of its sequence.
    pub(crate) fn heading_atx<T: Tables>(
        &mut self,
        source: &Source<'_, T, A>,
        inside: &[Event],
    ) -> Result<(), AllocError>
        requires { AreCounted source.now.checked.bytes.now self.old.columns }
        ensures default { KeepsEnding self.old.page self.new.page }
        ensures counted { AreCounted source.now.checked.bytes.now self.new.columns }
        ensures printed { (m : Meaning) (ds : List Definition) (place : Place) (kids : Nodes) →
            let names = T.reference_of source.now.tables.now in let bytes = source.now.checked.bytes.now in
            IsMeant names source.now ds m → is_size 6 (text_in bytes n.HeadingAtxSequence kids) ≡ true → inside.now ≡ events_of kids → AreSound bytes kids →
            OnOk result (LaysOut m.compile self.old.page self.new.page (in_bytes (leaf_block_pieces m place (heading_atx_of names bytes kids)))) }
    {
        let sequence = piece_in(source.bytes(), inside, Name::HeadingAtxSequence);
        self.heading(source, rank_of(sequence.len()), text_within(inside))
    }

    /// Prints a heading of a rank, with a text of these events.
    pub(crate) fn heading<T: Tables>(
        &mut self,
        source: &Source<'_, T, A>,
        rank: u8,
        text: &[Event],
    ) -> Result<(), AllocError>
        requires rank { (1 ≤ rank) × (rank ≤ 6) }
        requires counted { AreCounted source.now.checked.bytes.now self.old.columns }
        ensures default { KeepsEnding self.old.page self.new.page }
        ensures counted { AreCounted source.now.checked.bytes.now self.new.columns }
        ensures printed { (m : Meaning) (ds : List Definition) (place : Place) (kids : Nodes) →
            let names = T.reference_of source.now.tables.now in let bytes = source.now.checked.bytes.now in
            IsMeant names source.now ds m → text.now ≡ events_of kids → AreSound bytes kids →
            let heading = page.Heading rank (inlines_of names bytes false kids) in
            OnOk result (LaysOut m.compile self.old.page self.new.page (in_bytes (leaf_block_pieces m place heading))) }
    {
        self.page.fresh()?;
        self.start_heading(source, rank, text)?;
        self.page.heading_tag("</h", rank)
    }

    /// Prints the start tag of a heading, with its id where headings have ids, and its text.
    fn start_heading<T: Tables>(
        &mut self,
        source: &Source<'_, T, A>,
        rank: u8,
        text: &[Event],
    ) -> Result<(), AllocError>
        requires rank { (1 ≤ rank) × (rank ≤ 6) }
        requires counted { AreCounted source.now.checked.bytes.now self.old.columns }
        ensures default { KeepsEnding self.old.page self.new.page }
        ensures counted { AreCounted source.now.checked.bytes.now self.new.columns }
        ensures printed { (m : Meaning) (ds : List Definition) (kids : Nodes) →
            let names = T.reference_of source.now.tables.now in let bytes = source.now.checked.bytes.now in
            IsMeant names source.now ds m → text.now ≡ events_of kids → AreSound bytes kids →
            let is = inlines_of names bytes false kids in
            OnOk result (LaysOut m.compile self.old.page self.new.page (in_bytes (heading_start m rank is ∷ inline_pieces m is))) }
    {
        if source.options.heading_ids {
            return self
                .texts
                .named_text(&mut self.page, &mut self.columns, source, rank, text);
        }
        self.page.heading_tag("<h", rank)?;
        self.texts
            .text(&mut self.page, &mut self.columns, source, false, text)
    }
}

/// The rank of a heading whose sequence has this size, which is from 1 to 6.
fn rank_of(size: usize) -> u8
    ensures rank { (1 ≤ result) × (result ≤ 6) }
    ensures size { 1 ≤ size → size ≤ 6 → result ≡ size }
{
    match size {
        0 | 1 => 1,
        2 => 2,
        3 => 3,
        4 => 4,
        5 => 5,
        _ => 6,
    }
}
