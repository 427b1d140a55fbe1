//! final-newline (MD047): a text that doesn't end with one line ending.
//!
//! Tools that join files or compare them expect a line ending at the end of the last line. Blank lines at
//! the end print nothing.
//!
//! Example: `a` with no line feed, or with two.
use lint_document::document::is_white;
use lint_document::{Document, Report, Rule, Span};
use std::alloc::AllocError;

/// Reports that a text ends within a line, or with blank lines. A text of blank lines alone isn't looked
/// at.
pub(crate) fn check(document: &Document<'_>, report: &mut Report) -> Result<(), AllocError> {
    let rule = Rule::FinalNewline;
    let end = document.bytes.len();
    let Some(last) = document.bytes.iter().rposition(|byte| !is_white(*byte)) else {
        return Ok(());
    };
    // Where the line ends that has the last byte.
    let start = document.to_line_end(last).end;
    let ending = document.bytes_of(Span { start, end });
    match ending {
        [] => report.add(
            rule,
            Span { start, end },
            "no line ending at the end of the text",
        ),
        [b'\n'] | [b'\r'] | [b'\r', b'\n'] => Ok(()),
        _ => {
            let size = if ending.starts_with(b"\r\n") { 2 } else { 1 };
            let start = start.saturating_add(size);
            report.add(
                rule,
                Span { start, end },
                "blank line at the end of the text",
            )
        }
    }
}
