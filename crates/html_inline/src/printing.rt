//! What rows are printed by, and room that is used again.
ghost use Rattle.std.specs.Prelude.{◌≡◌, [], IfOk, string_bytes};

use crate::stack::OpenPart;
use inline_labels::LabelTable;
use inline_links::LinkTexts;
use markdown_compile_options::CompileOptions;
use markdown_options::Constructs;
use std::alloc::{AllocError, Allocator};

/// What rows are printed by.
#[derive(Drop)]
pub struct Printing<'a, A: Allocator + Clone, T> {
    /// Which constructs are on.
    pub on: &'a Constructs,
    /// How HTML is printed.
    pub compile: &'a CompileOptions,
    /// Which named characters there are.
    pub tables: &'a T,
    /// Where the definitions of the document lead, by their places.
    pub definitions: &'a [LinkTexts<'a>],
    /// The labels of the document's footnote definitions.
    pub footnotes: &'a LabelTable<A>,
    /// Whether it is the cell of a table, in whose code a bar may be escaped (GFM 4.10).
    pub cell: bool,
}

/// Room that is used again for each content.
#[derive(Drop)]
pub struct Scratch<A: Allocator> {
    /// What is open, the innermost last.
    pub(crate) stack: Vec<OpenPart, A>,
    /// A URL, a title, or the text of a code span or of math. It is overwritten.
    pub text: String<A>,
}

impl<A: Allocator + Clone> Scratch<A> {
    /// Room of which nothing is used.
    pub fn new(alloc: A) -> Result<Scratch<A>, AllocError>
        ensures stack { IfOk result (λ scratch. scratch.stack.items ≡ []) }
        ensures text { IfOk result (λ scratch. string_bytes scratch.text ≡ []) }
    {
        Ok(Scratch {
            stack: Vec::new(alloc.clone()?),
            text: String::new(alloc),
        })
    }
}
