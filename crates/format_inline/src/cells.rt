//! The cells of a row of a table.
use engine_events::event::Name;
use format_document::{Document, Node, trimmed};
use std::alloc::{AllocError, Global};
use std::str;
use unicode_width::UnicodeWidthStr;

/// The cells of a row without white space around them: what is between its bars.
pub(crate) fn cells_of<'t>(
    alloc: Global,
    document: &Document<'t>,
    index: usize,
    row: &Node,
) -> Result<Vec<&'t [u8]>, AllocError> {
    let mut cells = Vec::new(alloc);
    let mut start = row.start;
    for node in document.inside(index) {
        if node.name == Name::GfmTableCellDivider {
            let cell = trimmed(document.between(start, node.start));
            // Nothing but white space before the first bar is no cell.
            if start > row.start || !cell.is_empty() {
                cells.push(cell)?;
            }
            start = node.end;
        }
    }
    let cell = trimmed(document.between(start, row.end));
    if !cell.is_empty() {
        cells.push(cell)?;
    }
    Ok(cells)
}

/// How many columns of a line a cell takes.
pub(crate) fn width_of(cell: &[u8]) -> usize {
    match str::from_utf8(cell) {
        Ok(text) => text.width(),
        Err(_) => cell.len(),
    }
}
