//! heading-blank-lines (MD022): a heading with no blank line before or after it.
//!
//! A heading with no blank line around it is hard to find in the source, and some readers of Markdown don't
//! see it. A comment counts as a blank line, and so do the start and the end of a container.
//!
//! Example: `# A` and on the next line `b`.
use crate::gap::{Around, Block};
use lint_document::Rule;

/// The blank lines around headings.
pub(crate) const HEADING_BLANK_LINES: Around = Around {
    rule: Rule::HeadingBlankLines,
    block: Block::Heading,
    before: "no blank line before the heading",
    after: "no blank line after the heading",
};
