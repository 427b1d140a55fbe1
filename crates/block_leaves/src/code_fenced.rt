//! Fenced code (CommonMark 4.5), and math, which is fenced code of dollars.
//!
//!     fenced ::= fence line* end_of_fence?
ghost use Rattle.std.specs.Prelude.{◌≡◌};
ghost use Rattle.block_starts.specs.View.{rest_of};
ghost use Rattle.block_starts.specs.CodeFenced.{fence_if, fence_view};
ghost use Rattle.block_leaves.specs.Fences.{opening_fence as fence_here};

use crate::leaves::{Leaves, NOTHING, piece};
use block_rows::Row;
use block_starts::Cursor;
use block_starts::code_fenced::{Fence, fence_line, fence_start, is_fence_end};
use block_starts::math_flow::math_start;
use block_state::OpenLeaf;
use block_state::whole_lines::whole_piece;
use markdown_options::{Beside, Constructs, LineEnding};
use std::alloc::{AllocError, Allocator};
use text_pieces::Piece;

impl<'a, A: Allocator> Leaves<'a, A> {
    ghost use Rattle.std.specs.Prelude.{◌≡◌, OnOk, List, Option, ◌≤◌, ◌+◌, [], true, vec_len};
    ghost use Rattle.markdown_options.specs.declared.line_ending.LineEnding.{LineEnding};
    ghost use Rattle.definition_block.specs.CodeFenced.{Fence as FenceRecord};
    ghost use Rattle.definition_text.specs.BlockLines.{BlockLine, last_ending_or};
    ghost use Rattle.definition_block.specs.Tree as tree;
    ghost use Rattle.block_leaves.specs.View.{Adds, Becomes, Closes, HasCode, leaf_grown};
    ghost use Rattle.block_starts.specs.View.{rest_of};
    ghost use Rattle.text_pieces.specs.Pieces.{piece_line, whole_lines};

    /// Fenced code takes every line up to its closing fence.
    pub fn fenced_line(
        &mut self,
        on: &Constructs,
        fence: Fence<'a>,
        rest: &Cursor<'a>,
        beside: Beside,
    ) -> Result<(), AllocError>
        requires lines { self.old.lines_in_rows + 1 ≤ vec_len self.old.pieces }
        ensures { OnOk result ((opening : Option LineEnding) (ls : List BlockLine) → let leaf = tree.Fenced (fence_view fence.entry) opening ls in
            Becomes self.old self.new leaf (leaf_grown on.now beside (rest_of rest.now) (tree.At leaf))) }
    {
        if !is_fence_end(on, &fence, *rest) {
            self.pieces.push(piece(&fence_line(&fence, *rest), beside))?;
            self.leaf = OpenLeaf::Fenced {
                fence,
                ending: beside.ending,
            };
            return Ok(());
        }
        let count = self.pieces.len() - self.lines_in_rows - 1;
        self.end_leaf(Row::FencedCode(count), beside.ending)
    }

    /// One more line of the content of fenced code. What is known of its last line isn't changed.
    pub fn push_code(&mut self, line: Piece<'a>) -> Result<(), AllocError>
        ensures read { OnOk result ((fence : FenceRecord) → HasCode self.old self.new fence (piece_line line.entry)) }
        ensures lines { self.old.lines_in_rows + 1 ≤ vec_len self.old.pieces → self.new.lines_in_rows + 1 ≤ vec_len self.new.pieces }
    {
        self.pieces.push(line)?;
        Ok(())
    }

    /// Fenced code that has no line yet is closed by a fence. Its lines are those of a text.
    pub fn close_whole_code(
        &mut self,
        lines: &'a str,
        ending: Option<LineEnding>,
    ) -> Result<(), AllocError>
        requires { self.old.lines_in_rows + 1 ≡ vec_len self.old.pieces }
        ensures { OnOk result ((fence : FenceRecord) (opening : Option LineEnding) →
            let code = tree.Leaf (tree.FencedCode fence.info true (whole_lines lines.now)) in
            Closes self.old self.new (tree.Fenced fence opening []) (tree.block_and_ending code ending)) }
    {
        self.leaf = NOTHING;
        self.pieces.push(whole_piece(lines, None))?;
        self.end_leaf(Row::WholeCode, ending)
    }

    /// Fenced code starts, where no leaf is open.
    pub fn start_fenced(
        &mut self,
        fence: Fence<'a>,
        ending: Option<LineEnding>,
    ) -> Result<(), AllocError>
        ensures { OnOk result (Adds self.old self.new (tree.tree tree.Nil (tree.At (tree.Fenced (fence_view fence.entry) ending [])))) }
    {
        self.pieces.push(whole_piece(fence.info, None))?;
        self.leaf = OpenLeaf::Fenced { fence, ending };
        Ok(())
    }

    /// Fenced code ends with what is around it.
    pub(crate) fn close_fenced(&mut self, ending: Option<LineEnding>) -> Result<(), AllocError>
        requires { self.old.lines_in_rows + 1 ≤ vec_len self.old.pieces }
        ensures { OnOk result ((switches : Constructs) (fence : FenceRecord) (opening : Option LineEnding) (ls : List BlockLine) →
            ending ≡ last_ending_or opening ls →
            Closes self.old self.new (tree.Fenced fence opening ls) (tree.close_leaf switches (tree.Fenced fence opening ls))) }
    {
        let count = self.pieces.len() - self.lines_in_rows - 1;
        self.end_leaf(Row::UnclosedCode(count), ending)
    }
}

/// The fence of code or of math that opens here.
pub fn opening_fence<'a>(on: &Constructs, rest: &Cursor<'a>) -> Option<Fence<'a>>
    ensures { fence_if result ≡ fence_here on.now (rest_of rest.now) }
{
    match fence_start(on, *rest) {
        Some(fence) => Some(fence),
        None => math_start(on, *rest),
    }
}
