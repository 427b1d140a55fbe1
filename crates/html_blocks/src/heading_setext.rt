//! Setext headings (CommonMark 4.3).
ghost use Rattle.std.specs.Prelude.{◌≤◌, OnOk, false};
ghost use Rattle.definition_inline.specs.Targets.{Targets};
ghost use Rattle.definition_text.specs.BlockLines.{own_lines};
ghost use Rattle.definition_block.specs.Tree.{Heading};
ghost use Rattle.definition_page.specs.Read.{on_page};
ghost use Rattle.html_bytes.specs.Html.{leaf_bytes};
ghost use Rattle.text_pieces.specs.Pieces.{piece_lines};
ghost use Rattle.html_contents.specs.Texts.{KnowsTargets, document_by};
ghost use Rattle.html_looseness.specs.Printable.{AreHeadingLines};
ghost use Rattle.html_leaves.specs.Prints.{LaysOut, KeepsEnding};

use crate::printer::LeafPrinter;
use html_contents::Texts;
use markdown_options::Tables;
use std::alloc::{AllocError, Allocator};
use text_pieces::Piece;

impl<'t, A: Allocator + Clone> LeafPrinter<'t, A> {
    /// Prints a heading of these lines.
    pub fn heading_setext<T: Tables>(
        &mut self,
        texts: &Texts<'t, '_, T, A>,
        rank: u8,
        lines: &[Piece<'t>],
    ) -> Result<(), AllocError>
        requires { (1 ≤ rank) × (rank ≤ 6) }
        ensures default { KeepsEnding self.old.page self.new.page }
        ensures printed { (ds : Targets) → KnowsTargets texts.now ds →
            let ls = own_lines (piece_lines lines.now) in AreHeadingLines ls →
            let d = document_by T.Tables texts.now ds in
            OnOk result (LaysOut d.options.compile self.old.page self.new.page (leaf_bytes d on_page false (Heading rank ls))) }
    {
        self.page.fresh()?;
        self.heading_front(texts, rank, lines)?;
        self.page.heading_tag("</h", rank)
    }
}
