//! What is beside the remaining part of a line.
use crate::line_ending::LineEnding;

/// The kind of a character beside a run of delimiters (CommonMark 6.2).
#[derive(Clone, Copy, Debug, PartialEq, Eq)]
pub enum Kind {
    /// Unicode whitespace. The ends of a line and of the text count as whitespace.
    Whitespace,
    /// Unicode punctuation.
    Punctuation,
    /// Any other character.
    Other,
}

/// What is beside the remaining part of a line.
#[derive(Clone, Copy)]
pub struct Beside {
    /// The kind of the character before it.
    pub before: Kind,
    /// The line ending after it. The last line of a text may have none.
    pub ending: Option<LineEnding>,
}
