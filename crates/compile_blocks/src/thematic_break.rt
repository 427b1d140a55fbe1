//! Thematic breaks (CommonMark 4.1).
ghost use Rattle.std.specs.Prelude.{◌≡◌, OnOk};
ghost use Rattle.definition_page.specs.BlockPieces.{Place, leaf_block_pieces};
ghost use Rattle.definition_page.specs.InlinePieces.{Meaning};
ghost use Rattle.definition_page.specs.Page.{Break};
ghost use Rattle.html_bytes.specs.Pieces.{in_bytes};
ghost use Rattle.html_leaves.specs.Prints.{KeepsEnding, LaysOut};

use crate::printer::LeafPrinter;
use std::alloc::{AllocError, Allocator};

impl<A: Allocator + Clone> LeafPrinter<A> {
    /// Prints a thematic break.
    pub(crate) fn thematic_break(&mut self) -> Result<(), AllocError>
        ensures default { KeepsEnding self.old.page self.new.page }
        ensures columns { self.new.columns ≡ self.old.columns }
        ensures printed { (m : Meaning) (place : Place) →
            OnOk result (LaysOut m.compile self.old.page self.new.page (in_bytes (leaf_block_pieces m place Break))) }
    {
        self.page.fresh_tag("<hr />")
    }
}
