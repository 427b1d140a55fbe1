//! file-ends: no blank lines at the start and at the end of a file.
//!
//! The ending of the last line stays as it is, or is missing as before: it is on the page.
//!
//! Example: a blank line, `a` and two blank lines become `a`.
use format_document::Document;
use format_edits::Edits;

/// Removes blank lines at the ends of a file.
pub fn edit(document: &Document<'_>, edits: &mut Edits) {
    let bytes = document.bytes();
    let Some((first, last)) = ink(bytes) else {
        edits.edit(0, bytes.len());
        return;
    };
    let start = document.line_start(document.line_of(first));
    if start > 0 {
        edits.begin_group();
        edits.edit(0, start);
    }
    let end = document.line_start(document.line_of(last).saturating_add(1));
    if end < bytes.len() {
        edits.begin_group();
        edits.edit(end, bytes.len());
    }
}

/// The indexes of the first and the last byte that is no white space, if there is one.
fn ink(bytes: &[u8]) -> Option<(usize, usize)> {
    let mut found = None;
    for (index, byte) in bytes.iter().enumerate() {
        if !is_white(*byte) {
            found = match found {
                Some((first, _)) => Some((first, index)),
                None => Some((index, index)),
            };
        }
    }
    found
}

/// Whether a byte is a space, a tab, or of a line ending (CommonMark 2.1).
fn is_white(byte: u8) -> bool {
    matches!(byte, b' ' | b'\t' | b'\n' | b'\r')
}
