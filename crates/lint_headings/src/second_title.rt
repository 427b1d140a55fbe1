//! second-title (MD025): a heading of rank 1 in a text that has a title.
//!
//! A text whose first heading has rank 1 has that as its title. A second one splits the text in two, where
//! its parts should have rank 2.
//!
//! Example: `# B` after `# A`.
use lint_document::{Heading, Report, Rule};
use std::alloc::AllocError;

/// Reads the ranks of headings.
#[derive(Clone, Copy, Default)]
pub(crate) struct SecondTitle {
    /// The rank of the first heading.
    first: Option<usize>,
}

impl SecondTitle {
    /// Reports the next heading if it has rank 1 after a first one that has.
    pub(crate) fn check(
        &mut self,
        heading: &Heading,
        report: &mut Report,
    ) -> Result<(), AllocError> {
        match self.first {
            None => {
                self.first = Some(heading.rank);
                Ok(())
            }
            Some(1) if heading.rank == 1 => {
                report.add(Rule::SecondTitle, heading.span, "second heading of rank 1")
            }
            Some(_) => Ok(()),
        }
    }
}
