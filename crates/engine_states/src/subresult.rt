//! What reading a part of a text found beside its events.
use std::alloc::Allocator;

/// What reading a part of a text found beside its events.
#[derive(Drop)]
pub struct Subresult<A: Allocator> {
    /// Whether nothing is left to be read.
    pub done: bool,
    /// The labels of the footnote definitions, as they are compared.
    pub gfm_footnote_definitions: Vec<String<A>, A>,
    /// The labels of the definitions, as they are compared.
    pub definitions: Vec<String<A>, A>,
}
