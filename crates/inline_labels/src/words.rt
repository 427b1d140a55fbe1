//! The words of a label (CommonMark 2.1 and 6.3).
//!
//!     label ::= white* (word (white+ word)*)? white*
//!     white ::= space | tab | CR | LF
ghost use Rattle.std.specs.Prelude.{◌≡◌, drop};
ghost use Rattle.std.specs.List.{prefix_len};
ghost use Rattle.std.specs.Iterator.{YieldsFirstRef, item_count};
ghost use Rattle.definition_text.specs.Content.{is_space};
ghost use Rattle.definition_inline.specs.LabelMatch.{words};

use text_bytes::{space_size, word_size};

/// The remaining words of a label.
#[derive(Drop)]
pub(crate) struct Words<'a> {
    label: &'a [u8],
}

impl<'a> Words<'a> {
    pub(crate) fn new(label: &'a [u8]) -> Words<'a>
        ensures { result.label.now ≡ label.now }
    {
        Words { label }
    }
}

impl<'a> Iterator for Words<'a> {
    type Item = &'a [u8];

    ghost next_gives = { YieldsFirstRef (λ s. words s.label.now) };

    ghost remaining = { item_count (λ s. words s.label.now) };

    fn next(&mut self) -> Option<&'a [u8]> {
        let label = without_white(self.label);
        if label.is_empty() {
            return None;
        }
        let (word, rest) = label.split_at(word_size(label));
        self.label = rest;
        Some(word)
    }
}

/// The bytes after the spaces, tabs and line endings at the front.
fn without_white(label: &[u8]) -> &[u8]
    ensures { result.now ≡ drop (prefix_len is_space label.now) label.now }
{
    &label[space_size(label)..]
}
