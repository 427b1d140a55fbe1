//! Paragraphs (CommonMark 4.8).
ghost use Rattle.std.specs.Prelude.{◌<◌, ℕ, slice_index, OnOk};
ghost use Rattle.definition_inline.specs.Targets.{Targets};
ghost use Rattle.text_pieces.specs.ParagraphLines.{AreLines};
ghost use Rattle.definition_text.specs.BlockLines.{own_lines};
ghost use Rattle.definition_block.specs.Tree.{Paragraph};
ghost use Rattle.html_bytes.specs.Html.{leaf_bytes};
ghost use Rattle.text_pieces.specs.Pieces.{piece_lines, whole_lines};
ghost use Rattle.html_contents.specs.Texts.{KnowsTargets, document_by};
ghost use Rattle.html_looseness.specs.Levels.{standing_first};
ghost use Rattle.html_leaves.specs.Prints.{LaysOut, KeepsEnding};

use crate::printer::LeafPrinter;
use html_contents::Texts;
use markdown_options::Tables;
use std::alloc::{AllocError, Allocator};
use text_pieces::Piece;

impl<'t, A: Allocator + Clone> LeafPrinter<'t, A> {
    /// Prints a paragraph, which may be the first block of an item (CommonMark 4.8). That of a tight
    /// item is its text alone.
    pub fn paragraph<T: Tables>(
        &mut self,
        texts: &Texts<'t, '_, T, A>,
        tight: bool,
        first: bool,
        lines: &[Piece<'t>],
    ) -> Result<(), AllocError>
        ensures default { KeepsEnding self.old.page self.new.page }
        ensures printed { (ds : Targets) → KnowsTargets texts.now ds → AreLines (piece_lines lines.now) →
            let paragraph = Paragraph (own_lines (piece_lines lines.now)) in
            let d = document_by T.Tables texts.now ds in
            OnOk result (LaysOut d.options.compile self.old.page self.new.page (leaf_bytes d (standing_first first) tight paragraph)) }
    {
        if tight {
            return texts.push_paragraph(&mut self.page.out, &mut self.buffers, first, lines);
        }
        self.page.fresh_tag("<p>")?;
        texts.push_paragraph(&mut self.page.out, &mut self.buffers, first, lines)?;
        self.page.say("</p>")
    }

    /// Prints a paragraph of the lines of a text (CommonMark 4.8).
    pub fn whole_paragraph<T: Tables>(
        &mut self,
        texts: &Texts<'t, '_, T, A>,
        tight: bool,
        first: bool,
        text: &'t str,
    ) -> Result<(), AllocError>
        ensures default { KeepsEnding self.old.page self.new.page }
        ensures printed { (ds : Targets) → KnowsTargets texts.now ds →
            let paragraph = Paragraph (own_lines (whole_lines text.now)) in
            let d = document_by T.Tables texts.now ds in
            OnOk result (LaysOut d.options.compile self.old.page self.new.page (leaf_bytes d (standing_first first) tight paragraph)) }
        ensures bytes { (k : ℕ) → slice_index text.now k < 256 }
    {
        if tight {
            return texts.push_whole(&mut self.page.out, &mut self.buffers, first, text);
        }
        self.page.fresh_tag("<p>")?;
        texts.push_whole(&mut self.page.out, &mut self.buffers, first, text)?;
        self.page.say("</p>")
    }
}
