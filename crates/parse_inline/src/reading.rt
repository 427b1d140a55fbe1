//! What rows are read with.
ghost use Rattle.std.specs.Prelude.{◌∷◌, ◌≡◌, ◌+◌, ◌<◌, List, drop, slice_index, ℕ};

use markdown_options::Constructs;
use parse_lines::cut::from;

/// The content of a text, and what its strings are read by.
#[derive(Drop)]
pub struct Reading<'c, T> {
    pub on: &'c Constructs,
    pub tables: &'c T,
    pub content: &'c str,
}

impl<'c, T> Reading<'c, T> {
    /// The content from a place on, which is after an ASCII byte.
    pub fn rest(&self, place: usize) -> &'c str
        ensures after { (before b : ℕ) (content : List ℕ) → place ≡ before + 1 → b ∷ content ≡ drop before self.now.content.now → b < 128
            → result.now ≡ content }
        ensures bytes { (k : ℕ) → slice_index self.now.content.now k < 256 }
    {
        let content = self.content;
        // What is read as bytes is UTF-8.
        let _bytes = content.as_bytes();
        from(content, place)
    }
}
