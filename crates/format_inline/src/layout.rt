//! How the cells of a table are written.
use crate::cells::{cells_of, width_of};
use crate::style::TableStyle;
use engine_events::event::Name;
use format_document::{Document, is_space};
use std::alloc::{AllocError, Global};

/// The most columns of a line that a padded row takes.
const ROW_MAX: usize = 120;

/// The least columns of a line that a padded cell takes: those of three dashes.
pub(crate) const CELL_MIN: usize = 3;

/// How the cells of a column are written.
#[derive(Clone, Copy)]
pub(crate) struct Column {
    /// Whether its delimiter begins with a colon.
    pub(crate) has_left: bool,
    /// Whether its delimiter ends with a colon.
    pub(crate) has_right: bool,
    /// How many columns of a line its cells take, if they are padded.
    pub(crate) width: usize,
}

impl Column {
    /// How many of the free columns of a line are before the text of a padded cell.
    pub(crate) fn before(self, free: usize) -> usize {
        match (self.has_left, self.has_right) {
            (true, true) => free / 2,
            (false, true) => free,
            _ => 0,
        }
    }
}

/// How the cells of a table are written.
#[derive(Drop)]
pub(crate) struct Layout {
    /// A column for each delimiter.
    pub(crate) columns: Vec<Column>,
    /// Whether cells are padded.
    pub(crate) is_padded: bool,
    /// Whether delimiters have spaces around them.
    pub(crate) is_spaced: bool,
}

impl Layout {
    /// The layout of a table with this row of delimiters.
    pub(crate) fn of(
        alloc: Global,
        document: &Document<'_>,
        table: usize,
        delimiters: usize,
        style: TableStyle,
    ) -> Result<Layout, AllocError> {
        let mut layout = Layout {
            columns: columns(alloc, document, delimiters)?,
            is_padded: false,
            is_spaced: is_spaced(document, delimiters),
        };
        if matches!(style, TableStyle::Padded) {
            layout.is_spaced = true;
            layout.widen(alloc, document, table)?;
            layout.is_padded = layout.size() <= ROW_MAX;
        }
        Ok(layout)
    }

    /// Makes columns as wide as the cells of a table.
    fn widen(
        &mut self,
        alloc: Global,
        document: &Document<'_>,
        table: usize,
    ) -> Result<(), AllocError> {
        let mut at = table;
        for node in document.inside(table) {
            at = at.saturating_add(1);
            if node.name == Name::GfmTableRow {
                let cells = cells_of(alloc, document, at, node)?;
                for (column, cell) in self.columns.iter_mut().zip(cells.iter()) {
                    column.width = column.width.max(width_of(cell));
                }
            }
        }
        Ok(())
    }

    /// How many columns of a line a padded row takes.
    fn size(&self) -> usize {
        let mut size: usize = 1;
        for column in &self.columns {
            size = size.saturating_add(column.width).saturating_add(3);
        }
        size
    }

    /// A column by its number from 0, if cells are padded and the column has a delimiter.
    pub(crate) fn padded(&self, number: usize) -> Option<&Column> {
        if self.is_padded {
            self.columns.get(number)
        } else {
            None
        }
    }
}

/// Whether the first delimiter of a row has white space after it.
fn is_spaced(document: &Document<'_>, row: usize) -> bool {
    for node in document.inside(row) {
        if node.name == Name::GfmTableDelimiterCellValue {
            return match document.byte_at(node.end) {
                Some(byte) => is_space(byte),
                None => false,
            };
        }
    }
    false
}

/// The columns of a row of delimiters, as narrow as can be.
fn columns(alloc: Global, document: &Document<'_>, row: usize) -> Result<Vec<Column>, AllocError> {
    let mut columns = Vec::new(alloc);
    for node in document.inside(row) {
        if node.name == Name::GfmTableDelimiterCellValue {
            columns.push(Column {
                has_left: document.byte_at(node.start) == Some(b':'),
                has_right: document.byte_before(node.end) == Some(b':'),
                width: CELL_MIN,
            })?;
        }
    }
    Ok(columns)
}
