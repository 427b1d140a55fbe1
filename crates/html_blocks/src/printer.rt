//! Leaf blocks, and the endings of lines, printed to a page.
ghost use Rattle.std.specs.Prelude.{◌≡◌, IfOk, OnOk, string_bytes};
ghost use Rattle.markdown_options.specs.LineEndings.{ending_bytes};
ghost use Rattle.definition_block.specs.Tree.{Ending};
ghost use Rattle.block_rows.specs.Rows.{Single};
ghost use Rattle.html_bytes.specs.Document.{Document};
ghost use Rattle.html_bytes.specs.Layout.{nothing_laid, with_footnotes};
ghost use Rattle.html_looseness.specs.Levels.{row_pieces};
ghost use Rattle.html_leaves.specs.Prints.{LaysOut, KeepsEnding, page_view};

use html_contents::{TextBuffers, Texts};
use html_leaves::Page;
use html_looseness::Level;
use markdown_compile_options::CompileOptions;
use markdown_options::{LineEnding, Tables};
use std::alloc::{AllocError, Allocator};
use text_pieces::Piece;

/// A page that the leaf blocks of a text are printed to.
#[derive(Drop)]
pub struct LeafPrinter<'t, A: Allocator + Clone> {
    /// What is printed.
    pub page: Page<A>,
    /// Room for the contents of blocks.
    pub buffers: TextBuffers<'t, A>,
}

impl<'t, A: Allocator + Clone> LeafPrinter<'t, A> {
    /// A printer with an empty page, which has room for so many bytes.
    pub fn new(
        alloc: A,
        room: usize,
        default_ending: LineEnding,
    ) -> Result<LeafPrinter<'t, A>, AllocError>
        ensures blank { IfOk result (λ printer. page_view printer.page ≡ nothing_laid) }
        ensures default { IfOk result (λ printer. printer.page.default_ending ≡ default_ending) }
    {
        Ok(LeafPrinter {
            page: Page::new(alloc.clone()?, room, default_ending)?,
            buffers: TextBuffers::new(alloc)?,
        })
    }

    /// Ends the page: prints the footnotes that are called after its text.
    pub fn finish(self, options: &CompileOptions) -> Result<String<A>, AllocError>
        ensures { IfOk result (λ html. string_bytes html ≡
            with_footnotes options.now (ending_bytes self.entry.page.default_ending) (page_view self.entry.page)) }
    {
        let LeafPrinter { page, .. } = self;
        page.finish(options)
    }

    /// Prints the ending of a line, unless it follows what says nothing.
    pub fn line_ending(
        &mut self,
        level: Level,
        ending: Option<LineEnding>,
    ) -> Result<(), AllocError>
        ensures default { KeepsEnding self.old.page self.new.page }
        ensures printed { (d : Document) → OnOk result (LaysOut d.options.compile self.old.page self.new.page (row_pieces d level (Single (Ending ending)))) }
    {
        if level.silent {
            return Ok(());
        }
        self.page.push_ending(ending)
    }
}
