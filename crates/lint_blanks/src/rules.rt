//! All rules on lines and white space.
use crate::blank_lines::BlankLines;
use crate::code::Code;
use crate::emphasis_spaces::EmphasisSpaces;
use crate::fence_blank_lines::FENCE_BLANK_LINES;
use crate::gap::{Gap, Gaps};
use crate::heading_blank_lines::HEADING_BLANK_LINES;
use crate::line_length::LineLength;
use crate::list_blank_lines::LIST_BLANK_LINES;
use crate::tab_indent::TabIndent;
use crate::{final_newline, trailing_spaces};
use engine_events::event::Name;
use lint_document::document::Step;
use lint_document::{Document, Report, Span};
use std::alloc::AllocError;

/// The rules on lines and on white space between and in them, with what they know of the text so far.
#[derive(Clone, Copy)]
pub struct BlankRules {
    /// Where this line starts.
    start: usize,
    /// Where the spaces of the last hard break end, or 0.
    hard_break: usize,
    code: Code,
    blank_lines: BlankLines,
    lengths: LineLength,
    tabs: TabIndent,
    gaps: Gaps,
    emphasis: EmphasisSpaces,
}

impl BlankRules {
    /// At the start of a text. Lines may have so many characters.
    pub fn new(document: &Document<'_>, line_length: usize) -> BlankRules {
        BlankRules {
            start: 0,
            hard_break: 0,
            code: Code::default(),
            blank_lines: BlankLines::default(),
            lengths: LineLength::new(line_length),
            tabs: TabIndent::new(document),
            gaps: Gaps::default(),
            emphasis: EmphasisSpaces::default(),
        }
    }

    /// Whether the rules ask for the next event, if it has this name.
    pub fn asks_for(&self, name: Name) -> bool {
        self.tabs.is_waiting() || is_asked_for(name)
    }

    /// Reads the next event that the rules ask for.
    pub fn read(
        &mut self,
        document: &Document<'_>,
        step: &Step<'_>,
        report: &mut Report,
    ) -> Result<(), AllocError> {
        self.tabs.read(document, step, &self.code, report)?;
        match step.name {
            Name::Data | Name::GfmTableCell => self.emphasis.read(document, step, report),
            Name::HardBreakTrailing => {
                self.hard_break = step.index;
                Ok(())
            }
            _ => self.read_block(document, step, report),
        }
    }

    /// Reads the next event, if it is of a line or a block.
    fn read_block(
        &mut self,
        document: &Document<'_>,
        step: &Step<'_>,
        report: &mut Report,
    ) -> Result<(), AllocError> {
        if step.ends_line() {
            self.check_line(document, step, report)?;
        }
        if step.starts_line() {
            self.start = step.index;
            self.emphasis.read(document, step, report)?;
        }
        self.code.read(step);
        self.lengths.read(step);
        match self.gaps.read(document, step) {
            Some(gap) => check_gap(&gap, report),
            None => Ok(()),
        }
    }

    /// Reads the end of the text.
    pub fn finish(&self, document: &Document<'_>, report: &mut Report) -> Result<(), AllocError> {
        let line = Span {
            start: self.start,
            end: document.bytes.len(),
        };
        self.check_end(document, line, report)?;
        final_newline::check(document, report)
    }

    /// Reports what is wrong with the line that ends here.
    fn check_line(
        &mut self,
        document: &Document<'_>,
        step: &Step<'_>,
        report: &mut Report,
    ) -> Result<(), AllocError> {
        let line = Span {
            start: self.start,
            end: step.index,
        };
        self.blank_lines.check(document, step, line, report)?;
        self.check_end(document, line, report)
    }

    /// Reports that a line ends with white space, or too late.
    fn check_end(
        &self,
        document: &Document<'_>,
        line: Span,
        report: &mut Report,
    ) -> Result<(), AllocError> {
        self.lengths.check(document, line, report)?;
        let is_break = self.hard_break == line.end && line.start < line.end;
        if is_break || self.code.has_end(line.end) {
            Ok(())
        } else {
            trailing_spaces::check(document, line, report)
        }
    }
}

/// Whether a rule asks for events of this name, beside the first after an indent with a tab.
fn is_asked_for(name: Name) -> bool {
    matches!(
        name,
        Name::BlankLineEnding
            | Name::BlockQuote
            | Name::ByteOrderMark
            | Name::CodeFenced
            | Name::CodeFencedFence
            | Name::CodeFlowChunk
            | Name::CodeIndented
            | Name::CodeText
            | Name::CodeTextData
            | Name::Data
            | Name::Definition
            | Name::Frontmatter
            | Name::GfmFootnoteDefinition
            | Name::GfmTable
            | Name::GfmTableCell
            | Name::HardBreakTrailing
            | Name::HeadingAtx
            | Name::HeadingSetext
            | Name::HtmlFlow
            | Name::LineEnding
            | Name::ListItem
            | Name::ListOrdered
            | Name::ListUnordered
            | Name::MathFlow
            | Name::MathFlowChunk
            | Name::MathFlowFence
            | Name::MathText
            | Name::MathTextData
            | Name::Paragraph
            | Name::ThematicBreak
    )
}

/// Reports that there is no blank line in a gap.
fn check_gap(gap: &Gap, report: &mut Report) -> Result<(), AllocError> {
    HEADING_BLANK_LINES.check(gap, report)?;
    FENCE_BLANK_LINES.check(gap, report)?;
    LIST_BLANK_LINES.check(gap, report)
}
