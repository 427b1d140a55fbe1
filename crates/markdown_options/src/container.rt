//! Containers: blocks that hold other blocks.

/// A list item that is open (CommonMark 5.2).
#[derive(Clone, Copy, Debug, PartialEq, Eq)]
pub struct Item {
    /// The byte of the marker: `-`, `+`, `*`, `.` or `)`.
    pub marker: u8,
    /// The number of an ordered item.
    pub number: Option<u32>,
    /// The columns from the item's start to its content, after the prefix of its parent.
    pub size: usize,
}

/// A block that holds other blocks and has a prefix on each of its lines.
#[derive(Clone, Copy, Debug, PartialEq, Eq)]
pub enum Container<'a> {
    /// A block quote (CommonMark 5.1).
    Quote,
    /// A list item (CommonMark 5.2).
    Item(Item),
    /// A footnote definition, with its label as it is written (in neither standard).
    Footnote(&'a str),
}
