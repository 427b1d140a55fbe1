//! What is open in a text.
use inline_runs::Span;

/// What holds the next events.
#[derive(Clone, Copy)]
pub enum Open {
    /// A span, with the bytes of its sequences.
    Span { span: Span, size: usize },
    /// A link.
    Link,
    /// An image.
    Image,
}
