//! The content of lines that are put together (CommonMark 4.8).
ghost use Rattle.std.specs.Prelude.{◌≡◌, [], ℕ, Bool, IfOk, OnOk};
ghost use Rattle.std.specs.List.Sorted.{IsNonDecreasingBy};
ghost use Rattle.inline_content.specs.Marks.{mark_place};

use crate::content::Content;
use crate::mark::{Mark, push_mark};
use markdown_options::Kind;
use std::alloc::{AllocError, Allocator};
use text_pieces::{Piece, push_ending, push_line};

/// The content of the lines of a block. Its memory is used again for the next block.
#[derive(Drop)]
pub struct ContentBuffer<A: Allocator> {
    pub(crate) text: String<A>,
    pub(crate) marks: Vec<Mark, A>,
    pub ghost ordered: { IsNonDecreasingBy mark_place marks.items },
}

impl<A: Allocator + Clone> ContentBuffer<A> {
    ghost use Rattle.markdown_options.specs.declared.beside.Kind.{Kind};
    ghost use Rattle.inline_content.specs.Buffers.{buffer_view};

    /// The content of no lines.
    pub fn new(alloc: A) -> Result<ContentBuffer<A>, AllocError>
        ensures { (is_punctuation : ℕ → Bool) (after : Kind) → IfOk result (λ buffer. buffer_view is_punctuation after buffer ≡ []) }
    {
        Ok(ContentBuffer {
            text: String::new(alloc.clone()?),
            marks: Vec::new(alloc),
        })
    }
}

impl<A: Allocator> ContentBuffer<A> {
    ghost use Rattle.markdown_options.specs.declared.beside.Kind.{Kind};
    ghost use Rattle.definition_text.specs.BlockLines.{own_lines};
    ghost use Rattle.text_pieces.specs.Pieces.{piece_lines};
    ghost use Rattle.definition_text.specs.InlineCode.{inline_content};
    ghost use Rattle.inline_content.specs.View.{content_view};
    ghost use Rattle.inline_content.specs.Buffers.{buffer_view};
    ghost use Rattle.inline_content.specs.Lines.{AreContentLines};

    /// Makes it the content of these lines: a space for each column that is left of a tab, the bytes
    /// of the line, and all endings but the last.
    pub fn join(&mut self, lines: &[Piece<'_>]) -> Result<(), AllocError>
        ensures { (is_punctuation : ℕ → Bool) (after : Kind) → OnOk result (AreContentLines (piece_lines lines.now) →
            buffer_view is_punctuation after self.new ≡ inline_content is_punctuation after (own_lines (piece_lines lines.now))) }
    {
        self.marks.clear();
        self.text.clear();
        let mut waiting = None;
        for line in lines {
            push_ending(&mut self.text, waiting)?;
            push_mark(&mut self.marks, self.text.len(), line.before)?;
            push_line(&mut self.text, line.owed, line.text)?;
            waiting = line.ending;
        }
        Ok(())
    }

    /// The content, before a character of a kind.
    pub fn content(&self, after: Kind) -> Content<'_>
        ensures { (is_punctuation : ℕ → Bool) → content_view is_punctuation result ≡ buffer_view is_punctuation after self.now }
    {
        Content {
            text: &self.text,
            marks: &self.marks,
            after,
        }
    }
}
