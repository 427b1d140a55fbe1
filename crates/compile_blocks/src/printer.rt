//! Leaf blocks, and the endings between blocks, printed to a page.
ghost use Rattle.std.specs.Prelude.{◌≡◌, ℕ, List, IfOk, OnOk, string_bytes, true};
ghost use Rattle.markdown_options.specs.LineEndings.{ending_bytes};
ghost use Rattle.compile_rows.specs.Columns.{AreCounted};
ghost use Rattle.html_bytes.specs.Layout.{nothing_laid, with_footnotes};
ghost use Rattle.definition_inline.specs.Definition.{Definition};
ghost use Rattle.definition_page.specs.InlinePieces.{Meaning};
ghost use Rattle.definition_page.specs.Page as page;
ghost use Rattle.engine_events.specs.declared.event.Event.{Event as EventView};
ghost use Rattle.event_grammar.specs.Trees.{Nodes, Around};
ghost use Rattle.compile_levels.specs.Kinds.{kind_of};
ghost use Rattle.compile_levels.specs.Siblings.{Reads};
ghost use Rattle.event_meaning.specs.Blocks.{block_of};
ghost use Rattle.event_meaning.specs.Children.{text_of};
ghost use Rattle.html_bytes.specs.Pieces.{in_bytes};
ghost use Rattle.html_leaves.specs.Prints.{KeepsEnding, LaysOut, page_view};
ghost use Rattle.compile_blocks.specs.Leaf.{is_leaf, first_pieces};
ghost use Rattle.compile_blocks.specs.Meant.{IsMeant};
ghost use Rattle.compile_raw.specs.Sound.{IsSound, StandsAt};

use crate::gfm_table::push_table;
use crate::source::Source;
use crate::text::TextPrinter;
use compile_levels::kind::BlockKind;
use compile_levels::node::Node;
use compile_raw::{
    ending_of, push_code_fenced, push_code_indented, push_html_flow, push_math_flow,
};
use compile_rows::Columns;
use html_leaves::Page;
use markdown_compile_options::CompileOptions;
use markdown_options::{LineEnding, Tables};
use std::alloc::{AllocError, Allocator};

/// A page that the leaf blocks of a list are printed to.
#[derive(Drop)]
pub struct LeafPrinter<A: Allocator + Clone> {
    /// What is printed.
    pub page: Page<A>,
    pub(crate) columns: Columns,
    pub(crate) texts: TextPrinter<A>,
    /// Room for the info of fenced code.
    pub(crate) info: String<A>,
}

/// Where a leaf block stands.
#[derive(Clone, Copy)]
pub struct LeafPlace {
    /// Whether nothing holds it but the document.
    pub top: bool,
    /// Whether it is in an item of a tight list.
    pub tight: bool,
    /// Whether an ending here follows a block that prints nothing.
    pub silent: bool,
}

impl<A: Allocator + Clone> LeafPrinter<A> {
    /// A printer with an empty page, which has room for so many bytes.
    pub fn new(
        alloc: A,
        room: usize,
        default_ending: LineEnding,
    ) -> Result<LeafPrinter<A>, AllocError>
        ensures blank { IfOk result (λ printer. page_view printer.page ≡ nothing_laid) }
        ensures default { IfOk result (λ printer. printer.page.default_ending ≡ default_ending) }
        ensures counted { (bytes : List ℕ) → IfOk result (λ printer. AreCounted bytes printer.columns) }
    {
        Ok(LeafPrinter {
            page: Page::new(alloc.clone()?, room, default_ending)?,
            columns: Columns::new(),
            info: String::new(alloc.clone()?),
            texts: TextPrinter::new(alloc)?,
        })
    }

    /// Ends the page: prints the footnotes that are called after its text.
    pub fn finish(self, options: &CompileOptions) -> Result<String<A>, AllocError>
        ensures { IfOk result (λ html. string_bytes html ≡
            with_footnotes options.now (ending_bytes self.page.default_ending) (page_view self.page)) }
    {
        let LeafPrinter { page, .. } = self;
        page.finish(options)
    }

    /// Prints a leaf block, which is entered at an index of the list, or a line ending. Other events
    /// print nothing.
    pub fn leaf<T: Tables>(
        &mut self,
        source: &Source<'_, T, A>,
        kind: BlockKind,
        place: LeafPlace,
        index: usize,
        node: &Node<'_>,
    ) -> Result<(), AllocError>
        requires { AreCounted source.now.checked.bytes.now self.old.columns }
        ensures default { KeepsEnding self.old.page self.new.page }
        ensures counted { AreCounted source.now.checked.bytes.now self.new.columns }
        ensures printed { (m : Meaning) (ds : List Definition) (enter exit : EventView) (kids : Nodes) (inner : page.Blocks) →
            let names = T.reference_of source.now.tables.now in let bytes = source.now.checked.bytes.now in let leaf = Around enter kids exit in
            IsMeant names source.now ds m → Reads node.now leaf → IsSound bytes leaf →
            kind ≡ kind_of enter.name → is_leaf kind ≡ true → StandsAt source.now.checked.events.now index leaf →
            let blocks = block_of names bytes place.top enter.name (text_of bytes leaf) kids inner in
            OnOk result (LaysOut m.compile self.old.page self.new.page (in_bytes (first_pieces m place blocks))) }
    {
        let bytes = source.bytes();
        let inside = node.inside;
        match kind {
            BlockKind::Ending => self.line_ending(place.silent, ending_of(bytes, node)),
            BlockKind::Paragraph => self.paragraph(source, place.tight, inside),
            BlockKind::HeadingAtx => self.heading_atx(source, inside),
            BlockKind::HeadingSetext => self.heading_setext(source, inside),
            BlockKind::ThematicBreak => self.thematic_break(),
            BlockKind::CodeIndented => {
                push_code_indented(&mut self.page, &mut self.columns, bytes, inside)
            }
            BlockKind::CodeFenced => push_code_fenced(
                &mut self.page,
                &mut self.columns,
                &mut self.info,
                bytes,
                source.tables,
                place.top,
                inside,
            ),
            BlockKind::MathFlow => push_math_flow(
                &mut self.page,
                &mut self.columns,
                bytes,
                place.top,
                inside,
            ),
            BlockKind::HtmlFlow => push_html_flow(&mut self.page, source.options, bytes, inside),
            BlockKind::Table => push_table(
                &mut self.texts,
                &mut self.page,
                &mut self.columns,
                source,
                index,
                inside,
            ),
            BlockKind::Blank
            | BlockKind::Definition
            | BlockKind::Quote
            | BlockKind::UnorderedList
            | BlockKind::OrderedList
            | BlockKind::Item
            | BlockKind::Footnote
            | BlockKind::Other => Ok(()),
        }
    }
}
