//! reversed-link (MD011): a link with its text in parentheses and its destination in brackets.
//!
//! It is no link (CommonMark 6.3), and is printed as it is written. Parentheses right after a word aren't
//! looked at, as in `f(a)[b]`, nor are footnote calls, as in `(a)[^b]`.
//!
//! Example: `(text)[http://a.b]`.
use engine_events::event::{Kind, Name};
use lint_document::document::Step;
use lint_document::{Document, Report, Rule, Span};
use std::alloc::AllocError;

/// Reports the reversed links in the data that end here, if data do.
pub(crate) fn check(
    document: &Document<'_>,
    step: &Step<'_>,
    report: &mut Report,
) -> Result<(), AllocError> {
    if step.kind == Kind::Enter || step.name != Name::Data {
        return Ok(());
    }
    for (offset, byte) in step.bytes.iter().enumerate() {
        if *byte == b')' && step.bytes.get(offset.saturating_add(1)).copied() == Some(b'[') {
            report_link(document, step.start.saturating_add(offset), report)?;
        }
    }
    Ok(())
}

/// Reports the reversed link whose text ends at an index, if there is one.
fn report_link(
    document: &Document<'_>,
    index: usize,
    report: &mut Report,
) -> Result<(), AllocError> {
    match link_around(document, index) {
        Some(span) => report.add(
            Rule::ReversedLink,
            span,
            "link with its text in parentheses and its destination in brackets",
        ),
        None => Ok(()),
    }
}

/// The reversed link on one line whose text ends at an index, before `)[`.
fn link_around(document: &Document<'_>, index: usize) -> Option<Span> {
    let start = opening(document.bytes.get(..index)?)?;
    let after = document.bytes.get(index..)?.strip_prefix(b")[")?;
    let size = after
        .iter()
        .take_while(|byte| !matches!(**byte, b'[' | b']' | b'\n' | b'\r'))
        .count();
    let is_link = after.get(size).copied() == Some(b']') && !matches!(after, [b'^' | b']', ..]);
    let end = index.saturating_add(size).saturating_add(3);
    if is_link {
        Some(Span { start, end })
    } else {
        None
    }
}

/// Where the parenthesis is that opens the text at the end of bytes, unless it comes right after a word or a
/// backslash.
fn opening(bytes: &[u8]) -> Option<usize> {
    let start = bytes
        .iter()
        .rposition(|byte| matches!(*byte, b'(' | b')' | b'\n' | b'\r'))?;
    let is_empty = start.saturating_add(1) == bytes.len();
    if is_empty || *bytes.get(start)? != b'(' {
        return None;
    }
    match bytes.get(..start)?.last() {
        Some(before)
            if before.is_ascii_alphanumeric() || matches!(*before, b'_' | b'\\' | 0x80..) => {
            None
        }
        _ => Some(start),
    }
}
