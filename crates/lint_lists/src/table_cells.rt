//! table-cells (MD056): a row of a table with another number of cells than its head.
//!
//! Cells beyond those of the head aren't on the page, and missing ones are empty (GFM 4.10). Text right after
//! a table is a row, too.
//!
//! Example: `| c |` in a table with two columns.
use engine_events::event::{Kind, Name};
use lint_document::document::Step;
use lint_document::{Report, Rule, Span};
use std::alloc::AllocError;

/// Counts the cells of rows.
#[derive(Clone, Copy, Default)]
pub(crate) struct TableCells {
    /// The number of cells in the head of the table, once that was read.
    head: Option<usize>,
    /// Where the row starts that is open.
    start: usize,
    /// The number of its cells so far.
    count: usize,
}

impl TableCells {
    /// Reads the next event. Reports the row that ends there, if its cells are more or fewer than the head's.
    pub(crate) fn read(&mut self, step: &Step<'_>, report: &mut Report) -> Result<(), AllocError> {
        match (step.kind, step.name) {
            (Kind::Enter, Name::GfmTable) => self.head = None,
            (Kind::Enter, Name::GfmTableRow) => {
                self.start = step.index;
                self.count = 0;
            }
            (Kind::Enter, Name::GfmTableCell) => self.count = self.count.saturating_add(1),
            (Kind::Exit, Name::GfmTableRow) => return self.check(step.index, report),
            _ => {}
        }
        Ok(())
    }

    /// Reports the row that ends at an index, if its cells are more or fewer than the head's.
    fn check(&mut self, end: usize, report: &mut Report) -> Result<(), AllocError> {
        let Some(head) = self.head else {
            self.head = Some(self.count);
            return Ok(());
        };
        if head == self.count {
            return Ok(());
        }
        let span = Span {
            start: self.start,
            end,
        };
        let words = ["cells in the row:", ", in the head:"];
        report.add_numbers(Rule::TableCells, span, words, [self.count, head])
    }
}
