//! Tables (GFM 4.10).
//!
//!     table ::= head delimiters row*, where the head is the last line of a paragraph, and the row of
//!               delimiters is in all containers of that and has as many cells
//!     row   ::= a line that is in all containers, which is not blank, and which no other block begins

use crate::parser::Parser;
use block_starts::Cursor;
use markdown_options::Constructs;
use std::alloc::{AllocError, Allocator};

impl<'a, A: Allocator> Parser<'a, A> {
    ghost use Rattle.std.specs.Prelude.{◌≡◌, true, IfOk, List, length};
    ghost use Rattle.definition_text.specs.BlockLines.{BlockLine};
    ghost use Rattle.definition_block.specs.GfmTable.{delimiter_row};
    ghost use Rattle.definition_block.specs.Tree as tree;
    ghost use Rattle.text_pieces.specs.ParagraphLines.{AreLines};
    ghost use Rattle.block_leaves.specs.GfmTable.{table_if, table_tree};
    ghost use Rattle.block_leaves.specs.HeadingSetext.{IsText};
    ghost use Rattle.block_state.specs.Spine.{Level, Spine, spine_at};
    ghost use Rattle.block_parser.specs.View.{HasRead};
    ghost use Rattle.block_starts.specs.View.{rest_of};

    /// Whether a rest is a row of delimiters under the last line of the open paragraph, where the
    /// line is in so many containers, which are all of them.
    pub(crate) fn makes_table(
        &mut self,
        on: &Constructs,
        depth: usize,
        rest: &Cursor<'a>,
    ) -> Result<bool, AllocError>
        ensures made { IfOk result (λ made. (around : List Level) (kids : tree.Blocks) (away : tree.Opening) (row : BlockLine) → depth ≡ length around →
            AreLines (tree.open_text away) → HasRead self.old (spine_at around kids away) →
            table_if on.now (delimiter_row on.now (rest_of rest.now)) (tree.text_here away) row ≡ table_tree on.now made away row) }
        ensures here { IfOk result (λ made. (around : List Level) (kids : tree.Blocks) (away : tree.Opening) → depth ≡ length around →
            HasRead self.old (spine_at around kids away) → made ≡ true → IsText away) }
        ensures kept { (s : Spine) → HasRead self.old s → HasRead self.new s }
        ensures containers { self.new.open ≡ self.old.open }
    {
        if !on.gfm_table {
            return Ok(false);
        }
        if !self.interrupts(depth) {
            return Ok(false);
        }
        self.leaves.read_aligns(on, rest)?;
        if !self.leaves.has_head() {
            return Ok(false);
        }
        self.leaves.leaves_text(on)
    }

    /// Whether a table is open, and a line that is in so many containers is in all of its.
    pub(crate) fn is_row(&self, depth: usize) -> bool
        ensures { (around : List Level) (kids : tree.Blocks) (away : tree.Opening) → depth ≡ length around → HasRead self.now (spine_at around kids away) →
            result ≡ tree.has_table away }
    {
        depth == self.open.len() && self.leaves.has_table()
    }
}
