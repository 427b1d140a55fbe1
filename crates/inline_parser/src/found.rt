//! The rows of a content, wherever they stand.
ghost use Rattle.std.specs.Prelude.{◌≡◌};
ghost use Rattle.inline_parser.specs.Found.{found_rows};

use inline_rows::InlineRow;
use std::alloc::Allocator;
use std::slice::from_ref;

/// The rows of a content.
#[derive(Drop)]
pub enum FoundRows<'a, A: Allocator> {
    /// The content is text alone, but for soft line breaks: nothing else starts in it.
    Alone(InlineRow<'a>),
    /// The rows are in the room for rows.
    InRoom(&'a [InlineRow<'a>]),
    /// The rows have addresses, or links without literals, and are a list of their own (GFM 6.9).
    InList(Vec<InlineRow<'a>, A>),
}

impl<A: Allocator> FoundRows<'_, A> {
    /// All of them.
    pub fn as_slice(&self) -> &[InlineRow<'_>]
        ensures { result.now ≡ found_rows self.now }
    {
        match self {
            FoundRows::Alone(row) => from_ref(row),
            FoundRows::InRoom(rows) => rows,
            FoundRows::InList(rows) => rows.as_slice(),
        }
    }
}
