//! Where an event ends.
ghost use Rattle.std.specs.Prelude.{◌≡◌, ◌+◌, ◌<◌, ◌^◌};
ghost use Rattle.parse_output.specs.Ends.{end_at};

/// A place in a text: an index, and how many columns of the tab there are still ahead.
#[derive(Clone, Copy, Debug, PartialEq, Eq)]
pub struct End {
    /// How many bytes are before.
    pub index: usize,
    /// How many columns of the tab at the index are after the place; 0 if the place is before the
    /// byte at the index.
    pub owed: u8,
}

/// The place before the byte at an index.
pub fn at(index: usize) -> End
    ensures { result ≡ end_at index 0 }
{
    End { index, owed: 0 }
}

impl End {
    /// The place so many bytes after the index.
    pub fn after(self, size: usize) -> End
        ensures { self.index + size < 2 ^ 64 → result ≡ end_at (self.index + size) 0 }
    {
        at(self.index.saturating_add(size))
    }
}
