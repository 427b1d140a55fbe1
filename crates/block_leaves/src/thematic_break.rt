//! Thematic breaks (CommonMark 4.1).
//!
//!     break ::= a line by itself

use crate::leaves::Leaves;
use block_rows::Row;
use markdown_options::LineEnding;
use std::alloc::{AllocError, Allocator};

impl<'a, A: Allocator> Leaves<'a, A> {
    ghost use Rattle.std.specs.Prelude.{OnOk};
    ghost use Rattle.definition_block.specs.Tree as tree;
    ghost use Rattle.block_leaves.specs.View.{Adds};

    /// A thematic break, where no leaf is open.
    pub fn thematic_break(&mut self, ending: Option<LineEnding>) -> Result<(), AllocError>
        ensures { OnOk result (Adds self.old self.new (tree.tree (tree.block_and_ending (tree.Leaf tree.Break) ending) tree.nothing)) }
    {
        self.rows.block(Row::Break)?;
        self.rows.ending(ending)
    }
}
