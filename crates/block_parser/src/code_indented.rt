//! Indented code (CommonMark 4.4).
//!
//!     indented ::= indented_line (blank* indented_line)*

use crate::parser::Parser;
use block_starts::Cursor;
use block_starts::code_indented::starts_code_indented;
use markdown_options::{Beside, Constructs};
use std::alloc::{AllocError, Allocator};

impl<'a, A: Allocator> Parser<'a, A> {
    ghost use Rattle.std.specs.Prelude.{OnOk, List};
    ghost use Rattle.definition_text.specs.BlockLines.{BlockLine};
    ghost use Rattle.definition_block.specs.Tree as tree;
    ghost use Rattle.block_leaves.specs.View.{leaf_grown};
    ghost use Rattle.block_parser.specs.View.{Becomes};
    ghost use Rattle.block_starts.specs.View.{rest_of};

    /// Indented code goes on where the rest has its indent, and may go on over a blank one.
    pub(crate) fn indented_line(
        &mut self,
        on: &Constructs,
        rest: &Cursor<'a>,
        beside: Beside,
    ) -> Result<(), AllocError>
        ensures { OnOk result ((ls pending : List BlockLine) →
            Becomes self.old self.new (tree.Indented ls pending) (leaf_grown on.now beside (rest_of rest.now) (tree.At (tree.Indented ls pending)))) }
    {
        if rest.is_blank() {
            return self.leaves.indented_blank(rest, beside);
        }
        if starts_code_indented(on, *rest) {
            return self.leaves.indented_code(rest, beside);
        }
        let depth = self.open.len();
        self.start_line(on, depth, rest, beside)
    }
}
