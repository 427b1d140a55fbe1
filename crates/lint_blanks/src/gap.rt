//! Blocks side by side with no blank line between them.
use engine_events::event::{Kind, Name};
use lint_document::document::{Depth, Step};
use lint_document::{Document, Report, Rule, Span};
use std::alloc::AllocError;

/// What a block is, as far as the rules on blank lines ask.
#[derive(Clone, Copy, PartialEq, Eq)]
pub(crate) enum Block {
    Heading,
    Fence,
    /// A list that is in no item of another.
    List,
    Other,
}

/// A place where a block begins right after another, with no blank line between.
#[derive(Clone, Copy)]
pub(crate) struct Gap {
    before: Block,
    after: Block,
    /// The first line of the second block, from where that begins.
    span: Span,
}

/// A rule on the blank lines around blocks of a kind.
#[derive(Clone, Copy)]
pub(crate) struct Around {
    pub(crate) rule: Rule,
    pub(crate) block: Block,
    /// What it says where no blank line is before the block.
    pub(crate) before: &'static str,
    /// What it says where no blank line is after the block.
    pub(crate) after: &'static str,
}

impl Around {
    /// Reports a gap if one of its blocks is of this kind.
    pub(crate) fn check(&self, gap: &Gap, report: &mut Report) -> Result<(), AllocError> {
        if gap.after == self.block {
            report.add(self.rule, gap.span, self.before)
        } else if gap.before == self.block {
            report.add(self.rule, gap.span, self.after)
        } else {
            Ok(())
        }
    }
}

/// Reads the events of a text, and finds its gaps.
#[derive(Clone, Copy, Default)]
pub(crate) struct Gaps {
    /// The block that ended last, unless a block or an item began or ended since.
    last: Option<Block>,
    /// Whether there was a blank line since then.
    is_blank: bool,
    /// Whether the block that began last is a comment, which counts as a blank line.
    is_comment: bool,
    /// The items that are open.
    items: Depth,
}

impl Gaps {
    /// Reads the next event. Returns the gap before it, if it begins a block with no blank line before.
    pub(crate) fn read(&mut self, document: &Document<'_>, step: &Step<'_>) -> Option<Gap> {
        if step.name == Name::BlankLineEnding {
            self.is_blank = true;
        } else if step.name == Name::ListItem {
            self.items.count(step.kind);
            self.last = None;
        } else if is_block(step.name) {
            match step.kind {
                Kind::Enter => return self.enter(document, step),
                Kind::Exit => self.exit(step.name),
            }
        }
        None
    }

    fn enter(&mut self, document: &Document<'_>, step: &Step<'_>) -> Option<Gap> {
        self.is_comment = step.name == Name::HtmlFlow && starts_comment(document, step.index);
        let is_apart = self.is_blank || self.is_comment;
        self.is_blank = false;
        let before = self.last.take()?;
        if is_apart {
            return None;
        }
        Some(Gap {
            before,
            after: self.block(step.name),
            span: document.to_line_end(step.index),
        })
    }

    fn exit(&mut self, name: Name) {
        self.last = if self.is_comment {
            None
        } else {
            Some(self.block(name))
        };
        // A container ends where its last block ends, and blank lines may be before its exit.
        if !is_container(name) {
            self.is_blank = false;
        }
        self.is_comment = false;
    }

    fn block(&self, name: Name) -> Block {
        match name {
            Name::HeadingAtx | Name::HeadingSetext => Block::Heading,
            Name::CodeFenced => Block::Fence,
            Name::ListOrdered | Name::ListUnordered if !self.items.is_inside() => Block::List,
            _ => Block::Other,
        }
    }
}

/// Whether a comment starts at an index.
fn starts_comment(document: &Document<'_>, start: usize) -> bool {
    let end = document.bytes.len();
    document.bytes_of(Span { start, end }).starts_with(b"<!--")
}

fn is_container(name: Name) -> bool {
    matches!(
        name,
        Name::BlockQuote | Name::ListOrdered | Name::ListUnordered | Name::GfmFootnoteDefinition
    )
}

fn is_block(name: Name) -> bool {
    is_container(name)
        || matches!(
            name,
            Name::CodeFenced
                | Name::CodeIndented
                | Name::MathFlow
                | Name::HtmlFlow
                | Name::Definition
                | Name::Paragraph
                | Name::HeadingAtx
                | Name::HeadingSetext
                | Name::GfmTable
                | Name::ThematicBreak
        )
}
