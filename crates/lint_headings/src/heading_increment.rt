//! heading-increment (MD001): a heading whose rank is more than one above the rank of the heading before.
//!
//! A table of contents has a gap there, and who goes from heading to heading looks for a section that isn't
//! there. The first heading may have any rank.
//!
//! Example: `### B` right after `# A`.
use lint_document::{Heading, Report, Rule};
use std::alloc::AllocError;

/// Reads the ranks of headings.
#[derive(Clone, Copy)]
pub(crate) struct HeadingIncrement {
    /// The rank of the last heading.
    last: usize,
}

impl HeadingIncrement {
    pub(crate) fn new() -> HeadingIncrement {
        HeadingIncrement { last: 6 }
    }

    /// Reports the next heading if it skips a rank.
    pub(crate) fn check(
        &mut self,
        heading: &Heading,
        report: &mut Report,
    ) -> Result<(), AllocError> {
        let last = self.last;
        let rank = heading.rank;
        self.last = rank;
        if rank <= last.saturating_add(1) {
            return Ok(());
        }
        let words = ["rank", " after rank"];
        report.add_numbers(Rule::HeadingIncrement, heading.span, words, [rank, last])
    }
}
