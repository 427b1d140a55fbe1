//! Containers that are open (CommonMark 5).

/// A kind of container.
#[derive(Clone, Copy, Debug, PartialEq, Eq)]
pub enum Container {
    /// A block quote (CommonMark 5.1).
    BlockQuote,
    /// A list item (CommonMark 5.2).
    ListItem,
    /// A footnote definition (GitHub).
    GfmFootnoteDefinition,
}

/// An open container.
#[derive(Clone, Copy, Debug, PartialEq, Eq)]
pub struct ContainerState {
    pub kind: Container,
    /// Whether its first line is blank up to here.
    pub blank_initial: bool,
    /// How many columns its lines are indented.
    pub size: usize,
}
