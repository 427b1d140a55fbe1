//! fence-blank-lines (MD031): a fenced code block with no blank line before or after it.
//!
//! Some readers of Markdown take such a fence as text of the paragraph. A comment counts as a blank line,
//! and so do the start and the end of a container.
//!
//! Example: a fence on the line after `a`.
use crate::gap::{Around, Block};
use lint_document::Rule;

/// The blank lines around fenced code.
pub(crate) const FENCE_BLANK_LINES: Around = Around {
    rule: Rule::FenceBlankLines,
    block: Block::Fence,
    before: "no blank line before the code",
    after: "no blank line after the code",
};
