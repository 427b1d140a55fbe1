//! Indented code (CommonMark 4.4).
//!
//!     indented ::= indented_line (blank* indented_line)*
ghost use Rattle.std.specs.Prelude.{◌≡◌, ◌&&◌, not};
ghost use Rattle.definition_block.specs.CodeIndented.{starts_code_indented as has_code_indent};
ghost use Rattle.block_starts.specs.View.{rest_of};

use crate::leaves::{Leaves, NOTHING, piece};
use block_rows::Row;
use block_starts::Cursor;
use block_starts::code_indented::starts_code_indented;
use block_state::OpenLeaf;
use markdown_options::constants::CODE_INDENT;
use markdown_options::{Beside, Constructs, LineEnding};
use std::alloc::{AllocError, Allocator};

impl<'a, A: Allocator> Leaves<'a, A> {
    ghost use Rattle.std.specs.Prelude.{◌≡◌, OnOk, List, ◌≤◌, ◌+◌, ◌++◌, ◌∷◌, [], length, vec_len};
    ghost use Rattle.definition_text.specs.Indents.{outdent};
    ghost use Rattle.definition_text.specs.BlockLines.{BlockLine, last_ending};
    ghost use Rattle.definition_block.specs.Tree as tree;
    ghost use Rattle.block_leaves.specs.View.{Adds, Becomes, Closes};
    ghost use Rattle.block_starts.specs.View.{rest_of};

    /// A blank line after indented code, which may end it.
    pub fn indented_blank(&mut self, rest: &Cursor<'a>, beside: Beside) -> Result<(), AllocError>
        ensures { OnOk result ((ls pending : List BlockLine) → Becomes self.old self.new (tree.Indented ls pending)
            (tree.tree tree.Nil (tree.At (tree.Indented ls (pending ++ tree.rest_line (outdent 4 (rest_of rest.now)) beside ∷ []))))) }
    {
        self.pieces.push(piece(&rest.outdent(CODE_INDENT), beside))?;
        Ok(())
    }

    /// One more line of indented code, to which the blank ones before it belong, too.
    pub fn indented_code(&mut self, rest: &Cursor<'a>, beside: Beside) -> Result<(), AllocError>
        ensures { OnOk result ((ls pending : List BlockLine) → Becomes self.old self.new (tree.Indented ls pending)
            (tree.tree tree.Nil (tree.At (tree.Indented (ls ++ pending ++ tree.rest_line (outdent 4 (rest_of rest.now)) beside ∷ []) [])))) }
    {
        self.pieces.push(piece(&rest.outdent(CODE_INDENT), beside))?;
        let count = self.pieces.len() - self.lines_in_rows;
        self.leaf = OpenLeaf::Indented {
            count,
            ending: beside.ending,
        };
        Ok(())
    }

    /// Indented code starts, where no leaf is open.
    pub fn start_indented(&mut self, rest: &Cursor<'a>, beside: Beside) -> Result<(), AllocError>
        ensures { OnOk result (Adds self.old self.new
            (tree.tree tree.Nil (tree.At (tree.Indented (tree.rest_line (outdent 4 (rest_of rest.now)) beside ∷ []) [])))) }
    {
        self.pieces.push(piece(&rest.outdent(CODE_INDENT), beside))?;
        self.leaf = OpenLeaf::Indented {
            count: 1,
            ending: beside.ending,
        };
        Ok(())
    }

    /// Indented code ends: a row takes its lines, and the blank ones after them wait.
    pub(crate) fn close_indented(
        &mut self,
        count: usize,
        ending: Option<LineEnding>,
    ) -> Result<(), AllocError>
        requires { self.old.lines_in_rows + count ≤ vec_len self.old.pieces }
        ensures { OnOk result ((switches : Constructs) (ls pending : List BlockLine) → count ≡ length ls → ending ≡ last_ending ls →
            Closes self.old self.new (tree.Indented ls pending) (tree.close_leaf switches (tree.Indented ls pending))) }
    {
        self.rows.block(Row::IndentedCode(count))?;
        self.lines_in_rows += count;
        self.leaf = NOTHING;
        self.rows.ending(ending)?;
        for i in self.lines_in_rows..self.pieces.len() {
            self.rows.blank(self.pieces[i].ending)?;
        }
        self.pieces.truncate(self.lines_in_rows);
        Ok(())
    }
}

/// Whether indented code begins, which can't interrupt a paragraph.
pub fn begins_code(on: &Constructs, paragraph: bool, rest: &Cursor<'_>) -> bool
    ensures { result ≡ (has_code_indent on.now (rest_of rest.now) && not paragraph) }
{
    starts_code_indented(on, *rest) && !paragraph
}
