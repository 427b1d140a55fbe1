//! Link reference definitions (CommonMark 4.7).
//!
//!     paragraph ::= definition* line*
//!
//! Definitions are cut off a paragraph that ends, or that an underline or a row of delimiters
//! follows.
ghost use Rattle.std.specs.Prelude.{◌≡◌};
ghost use Rattle.definition_text.specs.BlockLines.{last_ending};
ghost use Rattle.text_pieces.specs.Pieces.{piece_lines};

use crate::leaves::Leaves;
use block_definitions::{first_definition, has_more, may_begin};
use block_rows::Row;
use markdown_options::{Constructs, LineEnding};
use std::alloc::{AllocError, Allocator};
use text_pieces::{Piece, join_lines};

impl<'a, A: Allocator> Leaves<'a, A> {
    ghost use Rattle.std.specs.Prelude.{◌≡◌, true, false, List, OnOk, IfOk};
    ghost use Rattle.definition_text.specs.BlockLines.{BlockLine};
    ghost use Rattle.definition_block.specs.Container.{Container as Holder};
    ghost use Rattle.definition_block.specs.Tree as tree;
    ghost use Rattle.definition_block.specs.Definitions.{definition_cut, cut_into};
    ghost use Rattle.text_pieces.specs.ParagraphLines.{AreLines};
    ghost use Rattle.block_state.specs.Spine.{Level, Spine, spine};
    ghost use Rattle.block_leaves.specs.View.{Becomes, AreRead};

    /// The definitions at the front of the open paragraph become rows.
    pub(crate) fn cut_definitions(&mut self, on: &Constructs) -> Result<(), AllocError>
        ensures { OnOk result ((ls : List BlockLine) → AreLines ls → let parts = definition_cut on.now ls in
            Becomes self.old self.new (tree.Text ls) (tree.tree parts.definitions (tree.At (tree.Text parts.left)))) }
    {
        if !self.may_define(on) {
            return Ok(());
        }
        join_lines(&mut self.content, &self.pieces[self.lines_in_rows..])?;
        let mut at = 0;
        while let Some(end) = first_definition(
            &self.content.as_bytes()[at..],
            &self.pieces[self.lines_in_rows..],
        ) {
            self.take_lines(Row::Definition(end.lines), end.lines)?;
            at += end.bytes;
        }
        Ok(())
    }

    /// Whether a definition may begin the open paragraph.
    pub(crate) fn may_define(&self, on: &Constructs) -> bool
        ensures on { result ≡ true → on.now.definition ≡ true }
        ensures uncut { result ≡ false → (containers : List Holder) (around : List Level) (kids : tree.Blocks) (ls : List BlockLine) →
            AreLines ls → AreRead self.now containers (spine around kids (tree.Text ls)) → definition_cut on.now ls ≡ cut_into tree.Nil ls }
    {
        on.definition && may_begin(&self.pieces[self.lines_in_rows..])
    }

    /// Whether something is left of the open paragraph after the definitions at its front.
    pub fn leaves_text(&mut self, on: &Constructs) -> Result<bool, AllocError>
        ensures left { IfOk result (λ some. (containers : List Holder) (around : List Level) (kids : tree.Blocks) (ls : List BlockLine) →
            AreLines ls → AreRead self.old containers (spine around kids (tree.Text ls)) → some ≡ tree.is_some_line (definition_cut on.now ls).left) }
        ensures kept { (containers : List Holder) (s : Spine) → AreRead self.old containers s → AreRead self.new containers s }
    {
        if !self.may_define(on) {
            return Ok(self.has_text());
        }
        join_lines(&mut self.content, &self.pieces[self.lines_in_rows..])?;
        Ok(has_more(self.content.as_bytes(), &self.pieces[self.lines_in_rows..]))
    }
}

/// The ending of the last of these lines.
pub(crate) fn last_ending(lines: &[Piece<'_>]) -> Option<LineEnding>
    ensures { result ≡ last_ending (piece_lines lines.now) }
{
    match lines.last() {
        Some(line) => line.ending,
        None => None,
    }
}
