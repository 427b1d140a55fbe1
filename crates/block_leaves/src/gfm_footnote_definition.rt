//! Footnote definitions (in neither standard).
//!
//!     footnote ::= label block*

use crate::leaves::Leaves;
use block_state::whole_lines::whole_piece;
use markdown_options::Container;
use std::alloc::{AllocError, Allocator};

impl<'a, A: Allocator> Leaves<'a, A> {
    ghost use Rattle.std.specs.Prelude.{OnOk};
    ghost use Rattle.definition_block.specs.Container.{Footnote};
    ghost use Rattle.block_leaves.specs.View.{Enters};

    /// A footnote definition starts, where no leaf is open. Its label is a line of its own.
    pub(crate) fn enter_footnote(&mut self, label: &'a str) -> Result<(), AllocError>
        ensures { OnOk result (Enters self.old self.new (Footnote label.entry.now)) }
    {
        self.pieces.push(whole_piece(label, None))?;
        self.rows.enter(Container::Footnote(label))?;
        self.lines_in_rows += 1;
        Ok(())
    }
}
