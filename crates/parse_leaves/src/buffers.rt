//! Buffers that are used again for each text.
use inline_content::ContentBuffer;
use inline_parser::{Room, RowRoom};
use parse_inline::Open;
use std::alloc::{AllocError, Allocator};

/// Buffers that are used again for each text.
#[derive(Drop)]
pub struct Buffers<'a, A: Allocator + Clone> {
    /// What the rows of joined lines are allocated by.
    pub(crate) alloc: A,
    /// Room for what is read.
    pub(crate) room: Room<A>,
    /// Room for the rows of what is a part of the document's text.
    pub(crate) rows: RowRoom<'a, A>,
    /// The content of lines that are joined.
    pub(crate) content: ContentBuffer<A>,
    /// The content of a definition.
    pub(crate) joined: String<A>,
    /// What is open in a text.
    pub(crate) open: Vec<Open, A>,
}

impl<'a, A: Allocator + Clone> Buffers<'a, A> {
    /// Buffers that hold nothing yet.
    pub fn new(alloc: A) -> Result<Buffers<'a, A>, AllocError> {
        Ok(Buffers {
            room: Room::new(alloc.clone()?)?,
            rows: RowRoom::new(alloc.clone()?)?,
            content: ContentBuffer::new(alloc.clone()?)?,
            joined: String::new(alloc.clone()?),
            open: Vec::new(alloc.clone()?),
            alloc,
        })
    }
}
