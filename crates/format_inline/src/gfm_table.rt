//! gfm-table: bars at both ends of a row, and one space on each side of a cell (GFM 4.10).
//!
//! With padding the bars stand in columns, unless a row would take more than 120. Delimiters have three dashes, and
//! spaces around them if the first one of the table has. A table with two backslashes before a bar stays: other readers
//! take that bar as text.
//!
//! Example: `a|b` becomes `| a | b |`.
use crate::cells::{cells_of, width_of};
use crate::layout::{CELL_MIN, Column, Layout};
use crate::style::TableStyle;
use engine_events::event::Name;
use format_document::{Document, Node};
use format_edits::Edits;
use std::alloc::Global;

/// Makes tables alike.
pub fn edit(alloc: Global, document: &Document<'_>, style: TableStyle, edits: &mut Edits) {
    for (index, node) in document.nodes().iter().enumerate() {
        if node.name == Name::GfmTable && !has_doubtful_bar(document.bytes_of(node)) {
            edit_table(alloc, document, index, style, edits);
        }
    }
}

/// Whether a bar is after two backslashes. Here the first one escapes the second, so that the bar ends a cell;
/// `cmark-gfm` takes the bar as escaped.
fn has_doubtful_bar(table: &[u8]) -> bool {
    let mut backslashes: usize = 0;
    for byte in table {
        if *byte == b'|' && backslashes > 1 {
            return true;
        }
        backslashes = if *byte == b'\\' {
            backslashes.saturating_add(1)
        } else {
            0
        };
    }
    false
}

/// Makes a table alike the others, if it has a row of delimiters.
fn edit_table(
    alloc: Global,
    document: &Document<'_>,
    index: usize,
    style: TableStyle,
    edits: &mut Edits,
) {
    let Some(delimiters) = delimiter_row(document, index) else {
        return;
    };
    match Layout::of(alloc, document, index, delimiters, style) {
        Ok(layout) => edit_rows(alloc, document, index, &layout, edits),
        Err(_) => edits.fail(),
    }
}

/// The number of the row of delimiters of a table.
fn delimiter_row(document: &Document<'_>, table: usize) -> Option<usize> {
    let (head, _) = document.kid(table, Name::GfmTableHead)?;
    let (row, _) = document.kid(head, Name::GfmTableDelimiterRow)?;
    Some(row)
}

/// Writes the rows of a table.
fn edit_rows(
    alloc: Global,
    document: &Document<'_>,
    table: usize,
    layout: &Layout,
    edits: &mut Edits,
) {
    edits.begin_group();
    let mut at = table;
    for node in document.inside(table) {
        at = at.saturating_add(1);
        if node.name == Name::GfmTableDelimiterRow {
            edit_delimiters(node, layout, edits);
        } else if node.name == Name::GfmTableRow {
            match cells_of(alloc, document, at, node) {
                Ok(cells) => edit_row(node, &cells, layout, edits),
                Err(_) => edits.fail(),
            }
        }
    }
}

/// Writes a row of cells.
fn edit_row(row: &Node, cells: &[&[u8]], layout: &Layout, edits: &mut Edits) {
    edits.replace(row.start, row.end, b"|");
    for (number, cell) in cells.iter().enumerate() {
        match layout.padded(number) {
            Some(column) => write_padded(cell, column, edits),
            None => write_cell(cell, edits),
        }
    }
    if layout.is_padded {
        for column in layout.columns.iter().skip(cells.len()) {
            write_padded(b"", column, edits);
        }
    }
}

/// Writes a cell with a space on each side, and the bar after it.
fn write_cell(cell: &[u8], edits: &mut Edits) {
    edits.write(b" ");
    edits.write(cell);
    let end: &[u8] = if cell.is_empty() { b"|" } else { b" |" };
    edits.write(end);
}

/// Writes a cell as wide as its column, and the bar after it.
fn write_padded(cell: &[u8], column: &Column, edits: &mut Edits) {
    let free = column.width.saturating_sub(width_of(cell));
    let before = column.before(free);
    edits.write_times(b' ', before.saturating_add(1));
    edits.write(cell);
    edits.write_times(b' ', free.saturating_sub(before).saturating_add(1));
    edits.write(b"|");
}

/// Writes a row of delimiters.
fn edit_delimiters(row: &Node, layout: &Layout, edits: &mut Edits) {
    edits.replace(row.start, row.end, b"|");
    let spaces = usize::from(layout.is_spaced);
    for column in &layout.columns {
        edits.write_times(b' ', spaces);
        write_delimiter(column, layout.is_padded, edits);
        edits.write_times(b' ', spaces);
        edits.write(b"|");
    }
}

/// Writes a delimiter: with three dashes, or as wide as its column.
fn write_delimiter(column: &Column, is_padded: bool, edits: &mut Edits) {
    let left = usize::from(column.has_left);
    let right = usize::from(column.has_right);
    let dashes = if is_padded {
        column.width.saturating_sub(left).saturating_sub(right)
    } else {
        CELL_MIN
    };
    edits.write_times(b':', left);
    edits.write_times(b'-', dashes);
    edits.write_times(b':', right);
}
