//! A list of events to its outline.
ghost use Rattle.std.specs.Prelude.{◌≡◌, ◌++◌, ◌∷◌, [], ℕ, List, IfOk, OnOk, drop, false, string_bytes};
ghost use Rattle.engine_events.specs.Events.{point_of};
ghost use Rattle.event_check.specs.Matches.{MatchesGrammar};
ghost use Rattle.event_grammar.specs.Trees.{Nodes, events_of};
ghost use Rattle.event_meaning.specs.Texts.{text_within};
ghost use Rattle.inline_labels.specs.Table.{HasLabels};
ghost use Rattle.compile_levels.specs.Siblings.{first_or};
ghost use Rattle.compile_raw.specs.Sound.{AreSound};
ghost use Rattle.compile_strings.specs.Columns.{AreCounted};
ghost use Rattle.definition_page.specs.Slug.{next_slug, with_slug};
ghost use Rattle.markdown_outline.specs.Listed.{AreStored, BeginsSound, HasHeadings, IsListed, begins_heading, listed_at, outline_of};
ghost use Rattle.html_heading_text.specs.HeadingLines.{heading_lines};

use crate::heading::{Heading, Outline, Range};
use crate::rank::{is_heading, rank_of};
use crate::said::push_said;
use compile_blocks::text_within;
use compile_levels::node::node_after;
use compile_rows::{Columns, TextEvents};
use engine_events::event::{Event, Kind};
use engine_events::place::Point;
use inline_labels::LabelTable;
use markdown_options::Tables;
use std::alloc::{AllocError, Allocator};
use text_slugs::Slugs;

/// Returns the headings of a text, by its events, which `parse` returns. The only error is out of
/// memory.
///
/// There is one for each enter of a heading, in order: also for those in block quotes, items and
/// footnote definitions. For a list of events that isn't in the grammar, ranks, texts and slugs are
/// any.
pub fn outline<T: Tables, A: Allocator + Clone>(
    alloc: A,
    events: &[Event],
    bytes: &[u8],
    tables: &T,
) -> Result<Outline<A>, AllocError>
    ensures listed { let names = T.reference_of tables.now in
        MatchesGrammar names bytes.now events.now →
        IfOk result (λ found. HasHeadings (string_bytes found.texts) found.headings.items (outline_of names bytes.now events.now)) }
{
    let definitions = LabelTable::new(alloc.clone()?)?;
    let source = TextEvents {
        bytes,
        tables,
        definitions: &definitions,
        linked: false,
    };
    let mut reader = Reader::new(alloc.clone()?)?;
    let mut headings = Vec::new(alloc);
    for (index, event) in events.iter().enumerate() {
        if begins_heading(event) {
            let heading = reader.read(&source, index, event, &events[index + 1..])?;
            headings.push(heading)?;
        }
    }
    let Reader { texts, .. } = reader;
    Ok(Outline { headings, texts })
}

/// Whether an event is the enter of a heading.
fn begins_heading(event: &Event) -> bool
    ensures { result ≡ begins_heading event.now.kind event.now.name }
{
    match event.kind {
        Kind::Enter => is_heading(event.name),
        Kind::Exit => false,
    }
}

/// Where an event ends, by the events after its enter and the number of those in it.
fn end_of(enter: &Event, after: &[Event], size: usize) -> Point
    ensures { result ≡ point_of (first_or enter.now (drop size after.now)) }
{
    match after.get(size) {
        Some(exit) => exit.point(),
        None => enter.point(),
    }
}

/// Reads headings, one after another.
#[derive(Drop)]
struct Reader<A: Allocator + Clone> {
    /// The texts and slugs of those that were read.
    texts: String<A>,
    slugs: Slugs<A>,
    columns: Columns,
    /// The text of the last one.
    text: String<A>,
    /// Room for code.
    room: String<A>,
    alloc: A,
}

impl<A: Allocator + Clone> Reader<A> {
    /// No heading was read.
    fn new(alloc: A) -> Result<Reader<A>, AllocError>
        ensures texts { IfOk result (λ reader. string_bytes reader.texts ≡ []) }
        ensures slugs { IfOk result (λ reader. reader.slugs ≡ []) }
        ensures counted { (bytes : List ℕ) → IfOk result (λ reader. AreCounted bytes reader.columns) }
    {
        Ok(Reader {
            texts: String::new(alloc.clone()?),
            slugs: Slugs::new(alloc.clone()?)?,
            columns: Columns::new(),
            text: String::new(alloc.clone()?),
            room: String::new(alloc.clone()?),
            alloc,
        })
    }

    /// Reads a heading: the index of its enter, this, and the events after it.
    fn read<T: Tables>(
        &mut self,
        source: &TextEvents<'_, T, A>,
        index: usize,
        enter: &Event,
        after: &[Event],
    ) -> Result<Heading, AllocError>
        requires { AreCounted source.now.bytes.now self.old.columns }
        ensures counted { AreCounted source.now.bytes.now self.new.columns }
        ensures slugs { let names = T.reference_of source.now.tables.now in let bytes = source.now.bytes.now in
            source.now.linked ≡ false → HasLabels source.now.definitions.now [] → BeginsSound bytes enter.now after.now →
            OnOk result (self.new.slugs ≡ self.old.slugs ++ (listed_at names bytes self.old.slugs index enter.now after.now).slug ∷ []) }
        ensures listed { let names = T.reference_of source.now.tables.now in let bytes = source.now.bytes.now in
            source.now.linked ≡ false → HasLabels source.now.definitions.now [] → BeginsSound bytes enter.now after.now →
            IfOk result (λ heading. IsListed (string_bytes self.old.texts) (string_bytes self.new.texts) heading
            (listed_at names bytes self.old.slugs index enter.now after.now)) }
    {
        let (node, _) = node_after(enter, after);
        self.say(source, node.inside)?;
        let (text, slug) = self.store()?;
        Ok(Heading {
            rank: rank_of(enter.name, source.bytes, node.inside),
            event: index,
            start: enter.point(),
            end: end_of(enter, after, node.inside.len()),
            text,
            slug,
        })
    }

    /// Reads what a heading says, by the events in it.
    fn say<T: Tables>(
        &mut self,
        source: &TextEvents<'_, T, A>,
        inside: &[Event],
    ) -> Result<(), AllocError>
        requires { AreCounted source.now.bytes.now self.old.columns }
        ensures counted { AreCounted source.now.bytes.now self.new.columns }
        ensures texts { self.new.texts ≡ self.old.texts }
        ensures slugs { self.new.slugs ≡ self.old.slugs }
        ensures said { (kids : Nodes) → let names = T.reference_of source.now.tables.now in let bytes = source.now.bytes.now in
            source.now.linked ≡ false → HasLabels source.now.definitions.now [] → AreSound bytes kids → inside.now ≡ events_of kids →
            OnOk result (string_bytes self.new.text ≡ heading_lines (text_within names bytes false kids)) }
    {
        self.text.clear();
        push_said(
            self.alloc.clone()?,
            &mut self.text,
            &mut self.room,
            &mut self.columns,
            source,
            text_within(inside),
        )
    }

    /// Stores the text of the last heading, and its slug after it.
    fn store(&mut self) -> Result<(Range, Range), AllocError>
        ensures columns { self.new.columns ≡ self.old.columns }
        ensures slugs { OnOk result (self.new.slugs ≡ with_slug self.old.slugs (string_bytes self.old.text)) }
        ensures stored { IfOk result (λ ranges. AreStored (string_bytes self.old.texts) (string_bytes self.new.texts) (string_bytes self.old.text)
            (next_slug self.old.slugs (string_bytes self.old.text)) ranges.0 ranges.1) }
    {
        let start = self.texts.len();
        self.texts.push_str(self.text.as_str())?;
        let middle = self.texts.len();
        self.slugs.add(&mut self.texts, self.text.as_str())?;
        let text = Range { start, end: middle };
        let slug = Range {
            start: middle,
            end: self.texts.len(),
        };
        Ok((text, slug))
    }
}
