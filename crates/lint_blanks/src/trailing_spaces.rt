//! trailing-spaces (MD009): spaces or tabs at the end of a line that are no hard break.
//!
//! Nobody sees them, and they turn up in every comparison of versions. Two or more spaces that break a line
//! (CommonMark 6.7) do something, and aren't reported. In code and math white space is on the page, and isn't
//! looked at.
//!
//! Example: a line feed after `a` and one space.
use lint_document::document::is_space;
use lint_document::{Document, Report, Rule, Span};
use std::alloc::AllocError;

/// Reports white space at the end of a line, which ends with no hard break, code or math.
pub(crate) fn check(
    document: &Document<'_>,
    line: Span,
    report: &mut Report,
) -> Result<(), AllocError> {
    let bytes = document.bytes_of(line);
    let size = bytes
        .iter()
        .rev()
        .take_while(|byte| is_space(**byte))
        .count();
    if size == 0 {
        return Ok(());
    }
    let white = Span {
        start: line.end.saturating_sub(size),
        end: line.end,
    };
    report.add(
        Rule::TrailingSpaces,
        white,
        "white space at the end of a line",
    )
}
