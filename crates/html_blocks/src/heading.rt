//! Headings before their end tags (CommonMark 4.2 and 4.3).
ghost use Rattle.std.specs.Prelude.{◌≤◌, OnOk};
ghost use Rattle.html_bytes.specs.Document.{text_of};
ghost use Rattle.definition_inline.specs.Targets.{Targets};
ghost use Rattle.definition_text.specs.BlockLines.{own_lines};
ghost use Rattle.text_pieces.specs.Pieces.{piece_lines};
ghost use Rattle.html_contents.specs.Texts.{KnowsTargets, document_by};
ghost use Rattle.html_looseness.specs.Printable.{AreHeadingLines};
ghost use Rattle.html_leaves.specs.Prints.{LaysOut, KeepsEnding};
ghost use Rattle.html_rows.specs.Headings.{heading_bytes};

use crate::printer::LeafPrinter;
use html_contents::Texts;
use html_leaves::heading::heading_name;
use markdown_options::Tables;
use std::alloc::{AllocError, Allocator};
use text_pieces::Piece;

impl<'t, A: Allocator + Clone> LeafPrinter<'t, A> {
    /// Prints the start tag of a heading, with its id if headings have ids, and its text. There may be
    /// one empty line.
    pub(crate) fn heading_front<T: Tables>(
        &mut self,
        texts: &Texts<'t, '_, T, A>,
        rank: u8,
        lines: &[Piece<'t>],
    ) -> Result<(), AllocError>
        requires { (1 ≤ rank) × (rank ≤ 6) }
        ensures default { KeepsEnding self.old.page self.new.page }
        ensures printed { (ds : Targets) → KnowsTargets texts.now ds →
            let ls = own_lines (piece_lines lines.now) in AreHeadingLines ls →
            let d = document_by T.Tables texts.now ds in
            OnOk result (LaysOut d.options.compile self.old.page self.new.page (heading_bytes d rank ls)) }
    {
        if texts.options.compile.heading_ids {
            let name = heading_name(rank);
            return texts.push_heading(&mut self.page.out, &mut self.buffers, name, lines);
        }
        self.page.heading_tag("<h", rank)?;
        self.heading_text(texts, lines)
    }

    /// Prints the text of a heading, which may be one empty line.
    fn heading_text<T: Tables>(
        &mut self,
        texts: &Texts<'t, '_, T, A>,
        lines: &[Piece<'t>],
    ) -> Result<(), AllocError>
        ensures default { KeepsEnding self.old.page self.new.page }
        ensures printed { (ds : Targets) → KnowsTargets texts.now ds →
            let ls = own_lines (piece_lines lines.now) in AreHeadingLines ls →
            let d = document_by T.Tables texts.now ds in OnOk result (LaysOut d.options.compile self.old.page self.new.page (text_of d ls)) }
    {
        if lines.len() == 1 {
            texts.push_line(&mut self.page.out, &mut self.buffers, &lines[0])
        } else {
            texts.push_text(&mut self.page.out, &mut self.buffers, lines)
        }
    }
}
