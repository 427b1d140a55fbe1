//! Paragraphs (CommonMark 4.8).
//!
//!     paragraph ::= text_line+, which no other block begins, and after the first no blank one ends

use crate::definition::last_ending;
use crate::leaves::{Leaves, NOTHING, piece};
use block_rows::Row;
use block_starts::Cursor;
use block_state::OpenLeaf;
use block_state::whole_lines::{first_lines, whole_piece};
use markdown_options::{Beside, Constructs, LineEnding};
use std::alloc::{AllocError, Allocator};
use text_pieces::Piece;

impl<'a, A: Allocator> Leaves<'a, A> {
    ghost use Rattle.std.specs.Prelude.{◌≡◌, IfNone, IfSome, List, None, OnOk};
    ghost use Rattle.definition_text.specs.BlockLines.{BlockLine, own_lines};
    ghost use Rattle.definition_block.specs.Tree as tree;
    ghost use Rattle.text_pieces.specs.ParagraphLines.{AreLines};
    ghost use Rattle.block_state.specs.WholeLines.{BeginsNot};
    ghost use Rattle.block_leaves.specs.View.{AreKnown, Closes, ClosesText, HasLine, lines_left};
    ghost use Rattle.text_pieces.specs.Pieces.{piece_line, whole_lines};
    ghost use Rattle.block_starts.specs.View.{rest_of};

    /// A line of text goes on the paragraph, or is its first.
    pub fn text_line(&mut self, rest: &Cursor<'a>, beside: Beside) -> Result<(), AllocError>
        ensures { OnOk result (HasLine self.old self.new (tree.rest_line (rest_of rest.now) beside)) }
    {
        self.add_line(piece(rest, beside))
    }

    /// A line of a block goes on the paragraph, or is its first.
    pub(crate) fn add_line(&mut self, line: Piece<'a>) -> Result<(), AllocError>
        ensures { OnOk result (HasLine self.old self.new (piece_line line.entry)) }
    {
        self.paragraph = if self.has_text() {
            self.paragraph
        } else {
            self.rest
        };
        self.push_line(line)
    }

    /// Adds a line to the paragraph, which is known to begin where `paragraph` does.
    pub fn push_line(&mut self, line: Piece<'a>) -> Result<(), AllocError>
        ensures { OnOk result (HasLine self.old self.new (piece_line line.entry)) }
    {
        self.pieces.push(line)?;
        Ok(())
    }

    /// Closes the open paragraph, if there is one, whose lines may be known to be those of a text.
    #[inline(always)]
    pub fn close_text(&mut self, on: &Constructs, known: Option<&'a str>) -> Result<(), AllocError>
        ensures { OnOk result (ClosesText self.old self.new known.entry (λ ls. tree.close_leaf on.now (tree.Text ls))) }
    {
        if !self.has_text() {
            return Ok(());
        }
        self.close_lines(on, known)
    }

    /// Closes the open paragraph: its definitions, and a paragraph of what is left.
    fn close_lines(&mut self, on: &Constructs, known: Option<&'a str>) -> Result<(), AllocError>
        ensures { OnOk result (ClosesText self.old self.new known.entry (λ ls. tree.close_leaf on.now (tree.Text ls))) }
    {
        if !self.may_define(on) {
            return self.close_paragraph(known);
        }
        self.cut_definitions(on)?;
        self.close_paragraph(None)
    }

    /// The lines that are left of the open paragraph, if there are any, are a paragraph. From two
    /// lines on it is kept as one, where they are whole: those of a text that may be known.
    fn close_paragraph(&mut self, known: Option<&'a str>) -> Result<(), AllocError>
        ensures { OnOk result (ClosesText self.old self.new known.entry tree.paragraph_of) }
    {
        let count = self.pieces.len() - self.lines_in_rows;
        if count == 0 {
            return Ok(());
        }
        let ending = last_ending(&self.pieces[self.lines_in_rows..]);
        if count == 1 {
            return self.end_leaf(Row::Paragraph(1), ending);
        }
        match self.text_or(known) {
            Some(text) => self.close_whole(text, ending),
            None => self.end_leaf(Row::Paragraph(count), ending),
        }
    }

    /// A text that is known to be that of the lines of the open leaf, or the one that is found.
    fn text_or(&self, known: Option<&'a str>) -> Option<&'a str>
        ensures text { IfSome result (λ text. let ls = lines_left self.now in AreLines ls → AreKnown known.entry ls → whole_lines text.now ≡ ls) }
        ensures unknown { IfNone result (known.entry ≡ None) }
        ensures none { IfNone result (BeginsNot (lines_left self.now) self.now.paragraph.now) }
    {
        match known {
            Some(text) => Some(text),
            None => self.whole_text(),
        }
    }

    /// The text of the lines of the open leaf, where they are the whole lines of the text from that
    /// of `paragraph` on.
    fn whole_text(&self) -> Option<&'a str>
        ensures text { IfSome result (λ text. AreLines (lines_left self.now) → whole_lines text.now ≡ lines_left self.now) }
        ensures none { IfNone result (BeginsNot (lines_left self.now) self.now.paragraph.now) }
    {
        first_lines(self.paragraph, &self.pieces[self.lines_in_rows..])
    }

    /// The open paragraph ends. Its lines are kept as one, which is their text.
    fn close_whole(&mut self, text: &'a str, ending: Option<LineEnding>) -> Result<(), AllocError>
        ensures { OnOk result ((ls : List BlockLine) → ls ≡ whole_lines text.now →
            Closes self.old self.new (tree.Text ls) (tree.block_and_ending (tree.Leaf (tree.Paragraph (own_lines ls))) ending)) }
    {
        self.leaf = NOTHING;
        self.pieces.truncate(self.lines_in_rows);
        self.pieces.push(whole_piece(text, None))?;
        self.end_leaf(Row::WholeParagraph, ending)
    }
}
