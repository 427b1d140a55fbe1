//! The prefixes of items and footnote definitions.
use engine_events::event::Name;
use engine_events::place::Point;

/// The prefix of an item, or of a footnote definition: of an item the number, the marker, and the white
/// space after it.
#[derive(Clone, Copy)]
pub struct Prefix {
    /// How many bytes are before it.
    pub start: usize,
    /// How many bytes are before the marker of an item, which has one byte.
    pub marker: usize,
    /// How many bytes are before its end.
    pub end: usize,
    /// How many columns of its line are before it.
    pub start_columns: usize,
    /// How many columns of its line are before its end.
    pub end_columns: usize,
    /// Whether a tab is cut at its end, so that some of its columns are after the prefix.
    pub is_cut: bool,
}

impl Prefix {
    /// A prefix that starts at a point.
    pub(crate) fn starting(point: Point) -> Prefix {
        let columns = point.column.saturating_sub(1);
        Prefix {
            start: point.index,
            marker: point.index,
            end: point.index,
            start_columns: columns,
            end_columns: columns,
            is_cut: false,
        }
    }

    /// Ends it at a point.
    pub(crate) fn end_at(&mut self, point: Point) {
        self.end = point.index;
        self.end_columns = point.column.saturating_sub(1);
        self.is_cut = point.vs != 0;
    }

    /// How many bytes are before the end of the marker.
    pub fn marker_end(&self) -> usize {
        self.marker.saturating_add(1)
    }

    /// How many columns of its line are before the end of the marker.
    pub fn marker_columns(&self) -> usize {
        let size = self.marker_end().saturating_sub(self.start);
        self.start_columns.saturating_add(size)
    }
}

/// Whether nodes of a name are such prefixes.
pub(crate) fn is_prefix(name: Name) -> bool {
    name == Name::ListItemPrefix || name == Name::GfmFootnoteDefinitionPrefix
}
