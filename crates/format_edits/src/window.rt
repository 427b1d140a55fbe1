//! A part of a text.
use crate::edits::Edit;

/// The bytes of a text from an index, up to but without another.
#[derive(Clone, Copy, Debug)]
pub struct Window {
    pub start: usize,
    pub end: usize,
}

impl Window {
    /// The blocks that an edit is in, of those that start at these places. `size` is that of the text.
    pub(crate) fn around(edit: &Edit, blocks: &[usize], size: usize) -> Window {
        let before = blocks.partition_point(|block| *block <= edit.start);
        let past = edit.end.max(edit.start.saturating_add(1));
        let after = blocks.partition_point(|block| *block < past);
        Window {
            start: place(blocks, before.checked_sub(1), 0),
            end: place(blocks, Some(after), size),
        }
    }

    /// The bytes of both windows and those between them.
    pub(crate) fn with(self, other: Window) -> Window {
        Window {
            start: self.start.min(other.start),
            end: self.end.max(other.end),
        }
    }

    /// The number of bytes.
    pub fn size(self) -> usize {
        self.end.saturating_sub(self.start)
    }
}

/// Where a block starts, or another place if there is no such block.
fn place(blocks: &[usize], index: Option<usize>, other: usize) -> usize {
    match index {
        Some(index) => blocks.get(index).copied().unwrap_or(other),
        None => other,
    }
}
