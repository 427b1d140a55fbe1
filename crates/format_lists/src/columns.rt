//! How many columns are before the content of an item.
use engine_events::place::tab_size;
use format_document::{Document, Prefix, is_space};
use format_edits::Edits;

/// A number of columns before the edits and after them.
#[derive(Clone, Copy)]
pub(crate) struct Columns {
    pub(crate) old: usize,
    pub(crate) new: usize,
}

impl Columns {
    /// Moves the content of a line of an item, unless the line is blank or lazy.
    pub(crate) fn edit_line(self, document: &Document<'_>, line: usize, edits: &mut Edits) {
        let start = document.line_start(line);
        let bytes = document.line(line);
        let (width, size) = indent(bytes, self.old);
        if width < self.old || bytes.trim_ascii().is_empty() {
            return;
        }
        edits.edit(start, start.saturating_add(size));
        edits.write_times(
            b' ',
            self.new.saturating_add(width.saturating_sub(self.old)),
        );
    }
}

/// The white space at the start of a line up to a column, or a tab past it: how many columns it takes, and
/// how many bytes.
fn indent(line: &[u8], columns: usize) -> (usize, usize) {
    let mut width: usize = 0;
    let mut size: usize = 0;
    for byte in line {
        if width >= columns || !is_space(*byte) {
            break;
        }
        let step = match byte {
            b'\t' => tab_size(width.saturating_add(1)),
            _ => 1,
        };
        width = width.saturating_add(step);
        size = size.saturating_add(1);
    }
    (width, size)
}

/// How many columns are before the content of an item: if it begins with a blank line, one space more
/// than before the end of its marker.
pub(crate) fn content_columns(document: &Document<'_>, prefix: &Prefix) -> usize {
    let end = prefix.marker_end();
    if document.ends_line(end) || prefix.end == end {
        prefix.marker_columns().saturating_add(1)
    } else {
        prefix.end_columns
    }
}
