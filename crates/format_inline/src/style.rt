//! What a formatter's caller may choose.

/// How tables are written.
#[derive(Clone, Copy, Debug, Default, PartialEq, Eq)]
pub enum TableStyle {
    /// One space on each side of a cell.
    #[default]
    Compact,
    /// Cells padded, so that bars stand in columns, if the table takes at most 120 columns.
    Padded,
}

/// How hard breaks are written.
#[derive(Clone, Copy, Debug, Default, PartialEq, Eq)]
pub enum BreakStyle {
    /// As they are.
    #[default]
    Keep,
    /// With two spaces at the end of a line.
    Spaces,
    /// With a backslash at the end of a line.
    Backslash,
}
