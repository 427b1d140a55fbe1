//! Where lines start and end, and what is before a block on its line.
use lint_document::document::is_white;
use lint_document::{Document, Span};

/// Where the line starts that an index is in.
pub(crate) fn line_start(document: &Document<'_>, index: usize) -> usize {
    let before = bytes_before(document, index);
    match before.iter().rposition(|byte| is_ending(*byte)) {
        Some(last) => last.saturating_add(1),
        None => 0,
    }
}

/// Where the first line from an index on starts that isn't blank, or where the text ends.
pub(crate) fn after_blank_lines(document: &Document<'_>, start: usize) -> usize {
    let end = document.bytes.len();
    let rest = document.bytes_of(Span { start, end });
    let Some(size) = rest.iter().position(|byte| !is_white(*byte)) else {
        return end;
    };
    line_start(document, start.saturating_add(size)).max(start)
}

/// The line ending before an index, or a line feed if there is none.
pub(crate) fn ending_before(document: &Document<'_>, index: usize) -> &'static [u8] {
    let before = bytes_before(document, index);
    if before.ends_with(b"\r\n") {
        b"\r\n"
    } else if before.ends_with(b"\r") {
        b"\r"
    } else {
        b"\n"
    }
}

/// The `>` of the quotes around a block, as they are before it on its line, which starts at an index. None if
/// anything else is before it.
pub(crate) fn quote_prefix<'a>(document: &Document<'a>, line: usize, block: usize) -> &'a [u8] {
    let prefix = document.bytes_of(Span {
        start: line,
        end: block,
    });
    if prefix.iter().all(|byte| matches!(byte, b' ' | b'>')) {
        prefix.trim_ascii_end()
    } else {
        &[]
    }
}

/// The bytes before an index.
fn bytes_before<'a>(document: &Document<'a>, end: usize) -> &'a [u8] {
    document.bytes_of(Span { start: 0, end })
}

/// Whether a byte is of a line ending (CommonMark 2.1).
fn is_ending(byte: u8) -> bool {
    matches!(byte, b'\n' | b'\r')
}
