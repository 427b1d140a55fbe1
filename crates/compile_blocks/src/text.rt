//! Texts: the inline structure of paragraphs, headings and cells (CommonMark 6).
ghost use Rattle.std.specs.Prelude.{◌≡◌, ◌≤◌, ◌∷◌, ℕ, List, OnOk, false, true};
ghost use Rattle.engine_events.specs.Names.{is_listed};
ghost use Rattle.event_grammar.specs.Trees.{Nodes, AreNodes, events_of};
ghost use Rattle.event_meaning.specs.Texts.{text_names, inlines_of};
ghost use Rattle.definition_inline.specs.Definition.{Definition};
ghost use Rattle.definition_inline.specs.Inline.{Inlines};
ghost use Rattle.definition_inline.specs.Targets.{leads_to};
ghost use Rattle.definition_page.specs.BlockPieces.{heading_name};
ghost use Rattle.definition_page.specs.GfmTable.{in_cell};
ghost use Rattle.definition_page.specs.HeadingText.{heading_text};
ghost use Rattle.definition_page.specs.InlinePieces.{Meaning, inline_counts, inline_pieces};
ghost use Rattle.definition_page.specs.Pieces.{Named};
ghost use Rattle.definition_page.specs.Tags.{bare_tag};
ghost use Rattle.html_bytes.specs.Pieces.{in_bytes};
ghost use Rattle.html_inline.specs.GfmTable.{parts_in_cell};
ghost use Rattle.html_inline.specs.Opens.{place_target};
ghost use Rattle.html_inline.specs.Prints.{Definitions, meaning_by};
ghost use Rattle.inline_labels.specs.Table.{HasLabels};
ghost use Rattle.inline_rows.specs.InlineRows.{inline_rows};
ghost use Rattle.inline_rows.specs.View.{rows_view};
ghost use Rattle.compile_rows.specs.Columns.{AreCounted};
ghost use Rattle.compile_blocks.specs.Meant.{IsMeant};
ghost use Rattle.compile_raw.specs.Sound.{AreSound};
ghost use Rattle.compile_blocks.specs.Texts.{text_kids};
ghost use Rattle.html_leaves.specs.Prints.{KeepsEnding, LaysOut};

use crate::source::Source;
use compile_levels::node::first_node;
use compile_rows::{Columns, SpelledStrings, alone_row, text_rows};
use engine_events::event::{Event, Name};
use html_heading_text::push_heading_text;
use html_inline::{Printing, Scratch, count_rows, push_alone, push_rows};
use html_leaves::Page;
use html_leaves::heading::heading_name;
use inline_rows::InlineRow;
use markdown_options::Tables;
use std::alloc::{AllocError, Allocator};

/// Prints texts to a page. It keeps the room that this takes.
#[derive(Drop)]
pub struct TextPrinter<A: Allocator + Clone> {
    pub(crate) scratch: Scratch<A>,
    /// Room for what a heading says.
    pub(crate) said: String<A>,
    /// What is read of texts and tables is allocated by it.
    pub alloc: A,
}

/// The events that hold the text of another.
const TEXT_NAMES: [Name; 8] = [
    Name::EmphasisText,
    Name::StrongText,
    Name::GfmStrikethroughText,
    Name::MarkText,
    Name::LabelText,
    Name::HeadingAtxText,
    Name::HeadingSetextText,
    Name::GfmTableCellText,
];

/// Returns the events in the first of these siblings that holds a text, or none.
pub fn text_within(events: &[Event]) -> &[Event]
    ensures { (kids : Nodes) → AreNodes kids → events.now ≡ events_of kids → result.now ≡ events_of (text_kids kids) }
{
    let mut rest = events;
    while let Some((node, after)) = first_node(rest) {
        if holds_text(node.name) {
            return node.inside;
        }
        rest = if node.name == Name::Label {
            node.inside
        } else {
            after
        };
    }
    &[]
}

/// Prints the start tag of a heading of a rank, with its id, and its text, which has these rows.
/// `said` is overwritten.
fn push_named_rows<A: Allocator + Clone, T: Tables>(
    page: &mut Page<A>,
    said: &mut String<A>,
    scratch: &mut Scratch<A>,
    printing: &Printing<'_, A, T>,
    rank: u8,
    rows: &[InlineRow<'_>],
) -> Result<(), AllocError>
    requires { (1 ≤ rank) × (rank ≤ 6) }
    ensures default { KeepsEnding page.old page.new }
    ensures printed { (definition : Definitions) (footnotes : List (List ℕ)) (is : Inlines) →
        let meaning = meaning_by (T.reference_of printing.now.tables.now) printing.now definition footnotes in
        HasLabels printing.now.footnotes.now footnotes →
        rows_view (place_target printing.now.definitions.now) rows.now ≡ inline_rows (leads_to definition) is →
        let start = Named (bare_tag (heading_name rank)) (heading_text is) in
        OnOk result (LaysOut printing.now.compile.now page.old page.new
        (in_bytes (start ∷ inline_pieces meaning (parts_in_cell printing.now.cell is)))) }
{
    said.clear();
    push_heading_text(said, &mut scratch.text, rows)?;
    page.out
        .start_heading(printing.compile, heading_name(rank), said.as_str())?;
    push_rows(&mut page.out, scratch, printing, rows)
}

/// Whether an event of this name holds the text of another.
fn holds_text(name: Name) -> bool
    ensures { result ≡ is_listed text_names name }
{
    TEXT_NAMES.contains(&name)
}

impl<A: Allocator + Clone> TextPrinter<A> {
    /// A printer that has printed nothing.
    pub fn new(alloc: A) -> Result<TextPrinter<A>, AllocError> {
        Ok(TextPrinter {
            scratch: Scratch::new(alloc.clone()?)?,
            said: String::new(alloc.clone()?),
            alloc,
        })
    }

    /// Prints the text of these events, in a cell of a table or not.
    pub fn text<T: Tables>(
        &mut self,
        page: &mut Page<A>,
        columns: &mut Columns,
        source: &Source<'_, T, A>,
        cell: bool,
        events: &[Event],
    ) -> Result<(), AllocError>
        requires { AreCounted source.now.checked.bytes.now columns.old }
        ensures default { KeepsEnding page.old page.new }
        ensures counted { AreCounted source.now.checked.bytes.now columns.new }
        ensures printed { (m : Meaning) (ds : List Definition) (kids : Nodes) →
            let names = T.reference_of source.now.tables.now in let bytes = source.now.checked.bytes.now in
            IsMeant names source.now ds m → events.now ≡ events_of kids → AreSound bytes kids →
            OnOk result (LaysOut m.compile page.old page.new (in_bytes (inline_pieces m (parts_in_cell cell (inlines_of names bytes false kids))))) }
    {
        match alone_row(source.bytes(), events) {
            Some(row) => push_alone(
                &mut page.out,
                &mut self.scratch,
                &source.printing(cell),
                row,
            ),
            None => self.text_by_rows(page, columns, source, cell, events),
        }
    }

    /// Prints the text of these events by rows that are made of all of it.
    fn text_by_rows<T: Tables>(
        &mut self,
        page: &mut Page<A>,
        columns: &mut Columns,
        source: &Source<'_, T, A>,
        cell: bool,
        events: &[Event],
    ) -> Result<(), AllocError>
        requires { AreCounted source.now.checked.bytes.now columns.old }
        ensures default { KeepsEnding page.old page.new }
        ensures counted { AreCounted source.now.checked.bytes.now columns.new }
        ensures printed { (m : Meaning) (ds : List Definition) (kids : Nodes) →
            let names = T.reference_of source.now.tables.now in let bytes = source.now.checked.bytes.now in
            IsMeant names source.now ds m → events.now ≡ events_of kids → AreSound bytes kids →
            OnOk result (LaysOut m.compile page.old page.new (in_bytes (inline_pieces m (parts_in_cell cell (inlines_of names bytes false kids))))) }
    {
        let texts = source.texts();
        let strings = SpelledStrings::read(self.alloc.clone()?, &texts, columns, events)?;
        let rows = text_rows(self.alloc.clone()?, &texts, &strings, events)?;
        push_rows(
            &mut page.out,
            &mut self.scratch,
            &source.printing(cell),
            &rows,
        )
    }

    /// Prints the start tag of a heading of a rank, with its id, and its text, which these events
    /// hold.
    pub(crate) fn named_text<T: Tables>(
        &mut self,
        page: &mut Page<A>,
        columns: &mut Columns,
        source: &Source<'_, T, A>,
        rank: u8,
        events: &[Event],
    ) -> Result<(), AllocError>
        requires rank { (1 ≤ rank) × (rank ≤ 6) }
        requires counted { AreCounted source.now.checked.bytes.now columns.old }
        ensures default { KeepsEnding page.old page.new }
        ensures counted { AreCounted source.now.checked.bytes.now columns.new }
        ensures printed { (m : Meaning) (ds : List Definition) (kids : Nodes) →
            let names = T.reference_of source.now.tables.now in let bytes = source.now.checked.bytes.now in
            IsMeant names source.now ds m → events.now ≡ events_of kids → AreSound bytes kids →
            let is = inlines_of names bytes false kids in let start = Named (bare_tag (heading_name rank)) (heading_text is) in
            OnOk result (LaysOut m.compile page.old page.new (in_bytes (start ∷ inline_pieces m is))) }
    {
        let texts = source.texts();
        let strings = SpelledStrings::read(self.alloc.clone()?, &texts, columns, events)?;
        let rows = text_rows(self.alloc.clone()?, &texts, &strings, events)?;
        push_named_rows(
            page,
            &mut self.said,
            &mut self.scratch,
            &source.printing(false),
            rank,
            &rows,
        )
    }

    /// Counts the calls of footnotes in the text of these events, which are in a cell that isn't
    /// printed.
    pub fn count_text<T: Tables>(
        &mut self,
        page: &mut Page<A>,
        columns: &mut Columns,
        source: &Source<'_, T, A>,
        events: &[Event],
    ) -> Result<(), AllocError>
        requires { AreCounted source.now.checked.bytes.now columns.old }
        ensures default { KeepsEnding page.old page.new }
        ensures counted { AreCounted source.now.checked.bytes.now columns.new }
        ensures printed { (m : Meaning) (ds : List Definition) (kids : Nodes) →
            let names = T.reference_of source.now.tables.now in let bytes = source.now.checked.bytes.now in
            IsMeant names source.now ds m → events.now ≡ events_of kids → AreSound bytes kids →
            OnOk result (LaysOut m.compile page.old page.new (in_bytes (inline_counts m (in_cell (inlines_of names bytes false kids))))) }
    {
        let texts = source.texts();
        let strings = SpelledStrings::read(self.alloc.clone()?, &texts, columns, events)?;
        let rows = text_rows(self.alloc.clone()?, &texts, &strings, events)?;
        count_rows(
            &mut page.out,
            &mut self.scratch,
            &source.printing(true),
            &rows,
        )
    }
}
