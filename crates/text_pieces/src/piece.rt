//! A line of a block, as a slice of the text.
use markdown_options::{Kind, LineEnding};

/// A line of a block: a piece of the text.
#[derive(Clone, Copy)]
pub struct Piece<'a> {
    /// The bytes of the line, after the prefixes of containers.
    pub text: &'a str,
    /// The remaining columns of a tab in which a prefix ended, before these bytes.
    pub owed: u8,
    /// The line's ending. The last line of a text may have none.
    pub ending: Option<LineEnding>,
    /// The kind of the character before it in the text.
    pub before: Kind,
}
