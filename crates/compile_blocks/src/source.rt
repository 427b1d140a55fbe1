//! What events are printed by.
ghost use Rattle.std.specs.Prelude.{◌≡◌, false};

use compile_rows::TextEvents;
use event_check::Checked;
use html_inline::Printing;
use inline_labels::LabelTable;
use inline_links::LinkTexts;
use markdown_compile_options::CompileOptions;
use markdown_options::Constructs;
use std::alloc::Allocator;

/// What the events of a list are printed by.
#[derive(Drop)]
pub struct Source<'a, T, A: Allocator + Clone> {
    /// The list.
    pub checked: Checked<'a, T>,
    pub options: &'a CompileOptions,
    pub tables: &'a T,
    /// By which constructs strings are read that are on the page.
    pub on: &'a Constructs,
    /// The labels of link reference definitions.
    pub labels: &'a LabelTable<A>,
    /// Where these lead.
    pub links: &'a [LinkTexts<'a>],
    /// The labels of footnote definitions, in the order in which these end.
    pub footnotes: &'a LabelTable<A>,
}

impl<'a, T, A: Allocator + Clone> Source<'a, T, A> {
    /// The bytes of the text.
    pub fn bytes(&self) -> &'a [u8]
        ensures { result.now ≡ self.now.checked.bytes.now }
    {
        self.checked.bytes()
    }

    /// What the events of texts are read by.
    pub fn texts(&self) -> TextEvents<'a, T, A>
        ensures bytes { result.bytes.now ≡ self.now.checked.bytes.now }
        ensures tables { result.tables.now ≡ self.now.tables.now }
        ensures definitions { result.definitions.now ≡ self.now.labels.now }
        ensures linked { result.linked ≡ false }
    {
        TextEvents {
            bytes: self.checked.bytes(),
            tables: self.tables,
            definitions: self.labels,
            linked: false,
        }
    }

    /// What texts are printed by, in a cell of a table or not.
    pub fn printing(&self, cell: bool) -> Printing<'a, A, T>
        ensures on { result.on.now ≡ self.now.on.now }
        ensures compile { result.compile.now ≡ self.now.options.now }
        ensures tables { result.tables.now ≡ self.now.tables.now }
        ensures definitions { result.definitions.now ≡ self.now.links.now }
        ensures footnotes { result.footnotes.now ≡ self.now.footnotes.now }
        ensures cell { result.cell ≡ cell }
    {
        Printing {
            on: self.on,
            compile: self.options,
            tables: self.tables,
            definitions: self.links,
            footnotes: self.footnotes,
            cell,
        }
    }
}
