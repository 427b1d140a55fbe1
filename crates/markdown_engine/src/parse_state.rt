//! What a text is read with.
ghost use Rattle.markdown_engine.specs.Context.{context, without_labels};

use markdown_options::{Message, ParseOptions, Tables};
use std::alloc::Allocator;

/// A text, and what reading it depends on. States may read all of it and change nothing.
#[derive(Drop)]
pub struct ParseState<'a, T, A: Allocator> {
    /// The text.
    pub bytes: &'a [u8],
    pub options: &'a ParseOptions,
    /// The names of characters, and punctuation.
    pub tables: &'a T,
    /// The labels of the definitions, as they are compared (CommonMark 4.7).
    pub definitions: Vec<String<A>, A>,
    /// The labels of the footnote definitions, as they are compared.
    pub gfm_footnote_definitions: Vec<String<A>, A>,
}

impl<'a, T: Tables, A: Allocator + Clone> ParseState<'a, T, A> {
    ghost use Rattle.std.specs.Prelude.{◌≡◌, IfOk, IfErr};
    ghost use Rattle.markdown_options.specs.Messages.{IsOutOfMemory};
    ghost use Rattle.markdown_engine.specs.Context.{context, without_labels};

    /// Returns a text without labels.
    pub fn new(
        alloc: A,
        bytes: &'a [u8],
        options: &'a ParseOptions,
        tables: &'a T,
    ) -> Result<ParseState<'a, T, A>, Message>
        ensures state { IfOk result (λ state. context state ≡ without_labels bytes.now options.now tables.now) }
        ensures memory { IfErr result IsOutOfMemory }
    {
        Ok(ParseState {
            bytes,
            options,
            tables,
            definitions: Vec::new(alloc.clone()?),
            gfm_footnote_definitions: Vec::new(alloc),
        })
    }
}
