//! What the events of texts are read by.
ghost use Rattle.std.specs.Prelude.{◌≡◌};
ghost use Rattle.compile_written.specs.Strings.{valid};

use inline_labels::LabelTable;
use std::alloc::Allocator;

/// What the events of texts are read by.
#[derive(Clone, Copy)]
pub struct TextEvents<'a, T, A: Allocator + Clone> {
    /// The bytes that the events are about.
    pub bytes: &'a [u8],
    /// The texts of named character references (CommonMark 2.5).
    pub tables: &'a T,
    /// The labels of link reference definitions, each with its place among them (CommonMark 4.7).
    pub definitions: &'a LabelTable<A>,
    /// Whether the texts are in a link.
    pub linked: bool,
}

/// Bytes as a text, or no text if they aren't UTF-8.
pub fn text_of(bytes: &[u8]) -> &str
    ensures { result.now ≡ valid bytes.now }
{
    match std::str::from_utf8(bytes) {
        Ok(text) => text,
        Err(_) => "",
    }
}
