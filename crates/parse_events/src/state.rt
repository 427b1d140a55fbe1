//! What is known of a text beside its events.
use markdown_options::ParseOptions;
use std::alloc::Allocator;

/// What a text was read by, and the labels that are defined in it.
#[derive(Drop)]
pub struct ParseState<'a, T, A: Allocator> {
    /// The options that the text was read with.
    pub options: &'a ParseOptions,
    /// The tables of character references and punctuation.
    pub tables: &'a T,
    /// The text.
    pub bytes: &'a [u8],
    /// The labels of link reference definitions, in the order of the text and with repeats. Each is in
    /// the form in which labels match (CommonMark 4.7).
    pub definitions: Vec<String<A>, A>,
    /// The labels of footnote definitions, in the order in which these begin, in the same form and with
    /// repeats (in neither standard).
    pub gfm_footnote_definitions: Vec<String<A>, A>,
}
