//! list-blank-lines (MD032): a list with no blank line before or after it.
//!
//! Some readers of Markdown take such a list as text of the paragraph; and a list that starts with another
//! number than 1 doesn't end a paragraph (CommonMark 5.3), so it is easily lost. Lists in items of other
//! lists aren't looked at. A comment counts as a blank line.
//!
//! Example: `- b` on the line after `a`.
use crate::gap::{Around, Block};
use lint_document::Rule;

/// The blank lines around lists.
pub(crate) const LIST_BLANK_LINES: Around = Around {
    rule: Rule::ListBlankLines,
    block: Block::List,
    before: "no blank line before the list",
    after: "no blank line after the list",
};
