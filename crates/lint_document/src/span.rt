//! Parts of a text.

/// A part of a text, by numbers of bytes before its start and before its end.
#[derive(Clone, Copy)]
pub struct Span {
    /// The number of bytes before it.
    pub start: usize,
    /// The number of bytes before its end.
    pub end: usize,
}
