//! blank-lines (MD012): more than one blank line in a row.
//!
//! It prints the same as one. Blank lines in code aren't looked at. A line with the `>` of a quote isn't
//! blank here.
//!
//! Example: two empty lines between `a` and `b`.
use engine_events::event::Name;
use lint_document::document::{Step, is_blank};
use lint_document::{Document, Report, Rule, Span};
use std::alloc::AllocError;

/// Reads the ends of lines.
#[derive(Clone, Copy, Default)]
pub(crate) struct BlankLines {
    /// How many blank lines came last.
    count: usize,
}

impl BlankLines {
    /// Reports a line that ends here if it is the second blank line of a run.
    pub(crate) fn check(
        &mut self,
        document: &Document<'_>,
        step: &Step<'_>,
        line: Span,
        report: &mut Report,
    ) -> Result<(), AllocError> {
        if !is_blank_line(document, step, line) {
            self.count = 0;
            return Ok(());
        }
        self.count = self.count.saturating_add(1);
        if self.count == 2 {
            report.add(Rule::BlankLines, line, "more than one blank line")
        } else {
            Ok(())
        }
    }
}

/// Whether a line that ends here has white space alone, and is no code.
fn is_blank_line(document: &Document<'_>, step: &Step<'_>, line: Span) -> bool {
    step.name == Name::BlankLineEnding && is_blank(document.bytes_of(line))
}
