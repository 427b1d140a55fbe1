//! Setext headings (CommonMark 4.3).
//!
//!     setext ::= paragraph underline, where the underline is in all containers of the paragraph

use crate::leaves::Leaves;
use block_rows::Row;
use markdown_options::{Constructs, LineEnding};
use std::alloc::{AllocError, Allocator};

impl<'a, A: Allocator> Leaves<'a, A> {
    ghost use Rattle.std.specs.Prelude.{OnOk, List};
    ghost use Rattle.definition_text.specs.BlockLines.{BlockLine};
    ghost use Rattle.definition_block.specs.Tree as tree;
    ghost use Rattle.text_pieces.specs.ParagraphLines.{AreLines};
    ghost use Rattle.block_leaves.specs.HeadingSetext.{heading_blocks};
    ghost use Rattle.block_leaves.specs.View.{Closes};

    /// What is left of the open paragraph after its definitions becomes a heading.
    pub fn setext_heading(
        &mut self,
        on: &Constructs,
        rank: u8,
        ending: Option<LineEnding>,
    ) -> Result<(), AllocError>
        ensures { OnOk result ((ls : List BlockLine) → AreLines ls → Closes self.old self.new (tree.Text ls) (heading_blocks on.now rank ls ending)) }
    {
        self.cut_definitions(on)?;
        let count = self.pieces.len() - self.lines_in_rows;
        self.end_leaf(Row::SetextHeading { rank, count }, ending)
    }
}
