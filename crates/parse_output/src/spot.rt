//! Places in a text, byte by byte (CommonMark 2.1 and 2.2).

/// A place between bytes.
#[derive(Clone, Copy)]
pub struct Spot {
    /// The line, from 1.
    pub line: usize,
    /// The column, from 1.
    pub column: usize,
    /// How many bytes are before.
    pub index: usize,
    /// Whether a CR is right before.
    pub returned: bool,
}

/// A place between bytes, or in a tab.
#[derive(Clone, Copy)]
pub struct Place {
    pub spot: Spot,
    /// How many columns of the tab there are before.
    pub vs: u8,
}
