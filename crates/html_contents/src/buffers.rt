//! Buffers that are used again for each text.
ghost use Rattle.std.specs.Prelude.{◌≡◌, [], ℕ, Bool, IfOk, string_bytes};
ghost use Rattle.inline_content.specs.Buffers.{buffer_view};

use html_inline::Scratch;
use inline_content::ContentBuffer;
use inline_parser::{Room, RowRoom};
use std::alloc::{AllocError, Allocator};

/// Buffers that are used again for each text.
#[derive(Drop)]
pub struct TextBuffers<'a, A: Allocator + Clone> {
    /// What the columns of tables are allocated by.
    pub alloc: A,
    /// Room for what is read.
    pub(crate) room: Room<A>,
    /// Room for the rows of what stands in the document's text.
    pub(crate) rows: RowRoom<'a, A>,
    /// The content of lines that are put together.
    pub(crate) content: ContentBuffer<A>,
    /// Room for what is printed.
    pub(crate) scratch: Scratch<A>,
    /// What a heading that gets an id says.
    pub(crate) said: String<A>,
}

impl<'a, A: Allocator + Clone> TextBuffers<'a, A> {
    ghost use Rattle.markdown_options.specs.declared.beside.Kind.{Kind};
    /// Buffers that hold nothing yet.
    pub fn new(alloc: A) -> Result<TextBuffers<'a, A>, AllocError>
        ensures content { (is_punctuation : ℕ → Bool) (after : Kind) → IfOk result (λ buffers. buffer_view is_punctuation after buffers.content ≡ []) }
        ensures stack { IfOk result (λ buffers. buffers.scratch.stack.items ≡ []) }
        ensures text { IfOk result (λ buffers. string_bytes buffers.scratch.text ≡ []) }
    {
        Ok(TextBuffers {
            content: ContentBuffer::new(alloc.clone()?)?,
            scratch: Scratch::new(alloc.clone()?)?,
            room: Room::new(alloc.clone()?)?,
            rows: RowRoom::new(alloc.clone()?)?,
            said: String::new(alloc.clone()?),
            alloc,
        })
    }
}
