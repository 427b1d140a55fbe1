//! ATX headings (CommonMark 4.2).
//!
//!     atx ::= a line by itself

use crate::leaves::Leaves;
use block_rows::Row;
use block_starts::heading_atx::Atx;
use block_state::whole_lines::whole_piece;
use markdown_options::LineEnding;
use std::alloc::{AllocError, Allocator};

impl<'a, A: Allocator> Leaves<'a, A> {
    ghost use Rattle.std.specs.Prelude.{OnOk, None, ◌∷◌, []};
    ghost use Rattle.definition_text.specs.BlockLines.{spaced_line};
    ghost use Rattle.definition_block.specs.Tree as tree;
    ghost use Rattle.block_leaves.specs.View.{Adds};

    /// An ATX heading, where no leaf is open.
    pub fn heading(&mut self, atx: Atx<'a>, ending: Option<LineEnding>) -> Result<(), AllocError>
        ensures { OnOk result (Adds self.old self.new
            (tree.tree (tree.block_and_ending (tree.Leaf (tree.Heading atx.entry.rank (spaced_line atx.entry.content.now None ∷ []))) ending) tree.nothing)) }
    {
        self.pieces.push(whole_piece(atx.content, None))?;
        self.rows.block(Row::Heading(atx.rank))?;
        self.lines_in_rows += 1;
        self.rows.ending(ending)
    }
}
