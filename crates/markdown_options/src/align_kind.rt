//! Alignments of the columns of a table.

/// The alignment of a table's column (GFM 4.10).
#[derive(Clone, Copy, Debug, PartialEq, Eq)]
pub enum AlignKind {
    /// To the left: `:-`.
    Left,
    /// To the right: `-:`.
    Right,
    /// In the middle: `:-:`.
    Center,
    /// Not set: `-`.
    None,
}
