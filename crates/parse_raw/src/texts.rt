//! What texts are read by.
ghost use Rattle.std.specs.Prelude.{◌≡◌};

use inline_labels::LabelTable;
use markdown_options::{ParseOptions, Tables};
use std::alloc::Allocator;

/// What the texts of a document are read by.
#[derive(Drop)]
pub struct Texts<'a, 'd, T, A: Allocator + Clone> {
    pub options: &'a ParseOptions,
    pub tables: &'a T,
    /// The labels of the document's link reference definitions.
    pub labels: &'d LabelTable<A>,
    /// The labels of its footnote definitions.
    pub footnotes: &'d LabelTable<A>,
}

impl<'a, T: Tables, A: Allocator + Clone> Texts<'a, '_, T, A> {
    /// The same for contents that live no longer than this.
    pub fn reborrow(&self) -> Texts<'_, '_, T, A>
        ensures { result ≡ self.now }
    {
        Texts {
            options: self.options,
            tables: self.tables,
            labels: self.labels,
            footnotes: self.footnotes,
        }
    }
}
