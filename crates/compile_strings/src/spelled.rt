//! What of a text is computed before its rows: strings that aren't one piece of the bytes, and where
//! links and images lead.
ghost use Rattle.std.specs.Prelude.{◌≡◌, ◌<◌, ◌≤◌, ◌+◌, ◌++◌, ◌∷◌, ℕ, List, [], true, false, IfOk, OnOk, drop, length, string_bytes};
ghost use Rattle.std.specs.Str.{is_utf8};
ghost use Rattle.definition_text.specs.Content.{content_codes};
ghost use Rattle.definition_inline.specs.Definition.{Definition};
ghost use Rattle.definition_inline.specs.Inline.{Target, LinkTexts as Leads};
ghost use Rattle.definition_inline.specs.LabelMatch.{first_match};
ghost use Rattle.definition_inline.specs.Targets.{labels_of, linked_at, linked_by, leads_to};
ghost use Rattle.engine_events.specs.Names.{same_name};
ghost use Rattle.engine_events.specs.declared.event.Event.{Event as AnEvent};
ghost use Rattle.engine_events.specs.declared.event.Name.TheVariants as names;
ghost use Rattle.event_grammar.specs.InGrammar.{PlacesFit};
ghost use Rattle.event_grammar.specs.declared.spot.Spot.{Spot};
ghost use Rattle.event_meaning.specs.Strings.{written};
ghost use Rattle.compile_strings.specs.Columns.{AreCounted};
ghost use Rattle.compile_strings.specs.Joined.{HaveRaws, HaveTargets, IsJoined, IsTarget, found_target, joined_first, label_at, resource_by};
ghost use Rattle.compile_strings.specs.LabelEnd.{AreHeld, HoldsAt, IsFoundAt, IsHeld, label_place};
ghost use Rattle.compile_strings.specs.declared.label_end.Held.{Held as AHeld};
ghost use Rattle.definition_inline.specs.CharacterReference.{Names};
ghost use Rattle.compile_strings.specs.RawTexts.{raw_after};
ghost use Rattle.compile_strings.specs.Targets.{string_first};
ghost use Rattle.compile_strings.specs.Spelled.{AreSpelled, nowhere, raws_by, raws_next, spelled, spelled_by, targets_by};
ghost use Rattle.inline_labels.specs.Table.{HasLabels};

use crate::columns::Columns;
use crate::label_end::{Held, Open, is_held, is_media};
use crate::raw_text::{is_exit, push_raw_text, sequence_of, whole_piece};
use crate::texts::{TextEvents, text_of};
use compile_written::string::push_written;
use engine_events::event::{Event, Kind, Name};
use event_references::label::push_text_at;
use inline_links::LinkTexts;
use inline_rows::LinkTarget;
use markdown_options::Tables;
use std::alloc::{AllocError, Allocator};

/// A text among those that were joined, by its place in them.
#[derive(Clone, Copy)]
pub struct Range {
    start: usize,
    end: usize,
}

/// What a link, an image or a call is made of.
#[derive(Clone, Copy)]
pub enum SpelledTarget {
    /// The destination and the title of a resource, as they are written (CommonMark 6.3).
    Resource {
        /// The destination.
        destination: Range,
        /// The title.
        title: Range,
    },
    /// The place of a link reference definition among those of the list.
    Definition(usize),
    /// No definition has the label.
    Nowhere,
    /// The label of a call (GFM footnotes).
    Call(Range),
}

/// The strings of a text that aren't one piece of its bytes, and where its links and images lead.
#[derive(Drop)]
pub struct SpelledStrings<A: Allocator> {
    /// The strings, one after another.
    text: String<A>,
    /// Links, images and calls, that of the first enter last.
    targets: Vec<SpelledTarget, A>,
    /// Code spans and math that are joined of pieces, that of the first enter first.
    raw_texts: Vec<Range, A>,
}

impl<A: Allocator + Clone> SpelledStrings<A> {
    /// Reads the events in a text. The columns are known up to some place before it, and then up to
    /// some place in it. The only error is out of memory.
    pub fn read<T: Tables>(
        alloc: A,
        texts: &TextEvents<'_, T, A>,
        columns: &mut Columns,
        events: &[Event],
    ) -> Result<SpelledStrings<A>, AllocError>
        requires { AreCounted texts.now.bytes.now columns.old }
        ensures spelled { (ds : List Definition) (at : Spot) →
            let names = T.reference_of texts.now.tables.now in
            HasLabels texts.now.definitions.now (labels_of ds) → PlacesFit texts.now.bytes.now at events.now →
            IfOk result (λ strings. AreSpelled names texts.now.bytes.now (leads_to (linked_by ds)) (linked_at ds) strings events.now) }
        ensures counted { AreCounted texts.now.bytes.now columns.new }
    {
        let mut strings = SpelledStrings {
            text: String::new(alloc.clone()?),
            targets: Vec::new(alloc.clone()?),
            raw_texts: Vec::new(alloc.clone()?),
        };
        strings.join_raw_texts(texts.bytes, columns, events)?;
        strings.find_targets(alloc, texts, events)?;
        Ok(strings)
    }

    /// Joins code spans and math that aren't one piece of the bytes.
    fn join_raw_texts(
        &mut self,
        bytes: &[u8],
        columns: &mut Columns,
        events: &[Event],
    ) -> Result<(), AllocError>
        requires { AreCounted bytes.now columns.old }
        ensures raws { (raws : List (List ℕ)) → HaveRaws self.old (raws_by bytes.now events.now) raws → OnOk result (HaveRaws self.new [] raws) }
        ensures targets { self.new.targets.items ≡ self.old.targets.items }
        ensures counted { AreCounted bytes.now columns.new }
    {
        let mut index = next_raw(events, 0);
        while index < events.len() {
            let rest = &events[index + 1..];
            if let Some(sequence) = joined_sequence(bytes, &events[index], rest) {
                self.join_raw_text(bytes, columns, sequence, rest)?;
            }
            index = next_raw(events, index + 1);
        }
        Ok(())
    }

    /// Joins a code span or math. The events are those after its enter.
    fn join_raw_text(
        &mut self,
        bytes: &[u8],
        columns: &mut Columns,
        sequence: Name,
        events: &[Event],
    ) -> Result<(), AllocError>
        requires { AreCounted bytes.now columns.old }
        ensures raws { (others raws : List (List ℕ)) → HaveRaws self.old (raw_after bytes.now sequence false 0 events.now ∷ others) raws →
            OnOk result (HaveRaws self.new others raws) }
        ensures targets { self.new.targets.items ≡ self.old.targets.items }
        ensures counted { AreCounted bytes.now columns.new }
    {
        let start = self.text.len();
        push_raw_text(&mut self.text, columns, bytes, sequence, events)?;
        let end = self.text.len();
        self.raw_texts.push(Range { start, end })?;
        Ok(())
    }

    /// Finds where links, images and calls lead, from the last event to the first.
    fn find_targets<T: Tables>(
        &mut self,
        alloc: A,
        texts: &TextEvents<'_, T, A>,
        events: &[Event],
    ) -> Result<(), AllocError>
        ensures targets { (ds : List Definition) (at : Spot) →
            let spelled = targets_by (T.reference_of texts.now.tables.now) texts.now.bytes.now (leads_to (linked_by ds)) in
            HasLabels texts.now.definitions.now (labels_of ds) → PlacesFit texts.now.bytes.now at events.now →
            self.old.targets.items ≡ [] →
            OnOk result (HaveTargets (linked_at ds) self.new (spelled events.now)) }
        ensures raws { (ds : List Definition) (at : Spot) (raws : List (List ℕ)) → HasLabels texts.now.definitions.now (labels_of ds) →
            PlacesFit texts.now.bytes.now at events.now → HaveRaws self.old [] raws → OnOk result (HaveRaws self.new [] raws) }
    {
        let mut label = Vec::new(alloc.clone()?);
        let mut open = Open::new(alloc);
        let mut end = last_noted(events, events.len());
        while end > 0 {
            let index = end - 1;
            self.find_target(&mut label, &mut open, texts, events, index)?;
            end = last_noted(events, index);
        }
        Ok(())
    }

    /// One event more, before the others. `label` is overwritten.
    fn find_target<T: Tables>(
        &mut self,
        label: &mut Vec<u8, A>,
        open: &mut Open<A>,
        texts: &TextEvents<'_, T, A>,
        events: &[Event],
        index: usize,
    ) -> Result<(), AllocError>
        requires { index < length events.now }
        ensures held { AreHeld events.now (drop (index + 1) events.now) open.old → OnOk result (AreHeld events.now (drop index events.now) open.new) }
        ensures targets { (ds : List Definition) (at : Spot) →
            let spelled = targets_by (T.reference_of texts.now.tables.now) texts.now.bytes.now (leads_to (linked_by ds)) in
            HasLabels texts.now.definitions.now (labels_of ds) → PlacesFit texts.now.bytes.now at events.now →
            AreHeld events.now (drop (index + 1) events.now) open.old → HaveTargets (linked_at ds) self.old (spelled (drop (index + 1) events.now)) →
            OnOk result (HaveTargets (linked_at ds) self.new (spelled (drop index events.now))) }
        ensures raws { (ds : List Definition) (at : Spot) (raws : List (List ℕ)) → HasLabels texts.now.definitions.now (labels_of ds) →
            PlacesFit texts.now.bytes.now at events.now → AreHeld events.now (drop (index + 1) events.now) open.old →
            HaveRaws self.old [] raws → OnOk result (HaveRaws self.new [] raws) }
    {
        let name = events[index].name;
        match events[index].kind {
            Kind::Exit => {
                if is_media(name) {
                    open.exit()?;
                }
            }
            Kind::Enter => {
                if is_media(name) {
                    let held = open.enter();
                    let target = read_target(&mut self.text, label, texts, events, name, held)?;
                    self.targets.push(target)?;
                } else {
                    open.note(name, index);
                }
            }
        }
        Ok(())
    }
}

impl<A: Allocator> SpelledStrings<A> {
    ghost use Rattle.std.specs.Prelude.{◌≡◌, ℕ, [], reverse, slice_index_or, string_bytes};
    ghost use Rattle.definition_inline.specs.Inline as inline;
    ghost use Rattle.definition_text.specs.Content.{content_codes};
    ghost use Rattle.compile_strings.specs.Spelled.{no_spelled, range_text, raws_view, targets_view};
    ghost use Rattle.compile_strings.specs.declared.spelled.SpelledTarget.TheVariants as targets;
    ghost use Rattle.inline_rows.specs.View.{target_texts};

    /// The text of a range.
    fn text_in(&self, range: Range) -> &str
        ensures { result.now ≡ range_text (string_bytes self.now.text) range }
    {
        let bytes = self.text.as_bytes();
        if range.start <= range.end && range.end <= bytes.len() {
            text_of(&bytes[range.start..range.end])
        } else {
            ""
        }
    }

    /// What the link, the image or the call of a number is made of.
    fn target(&self, number: usize) -> SpelledTarget
        ensures { result ≡ slice_index_or (reverse self.now.targets.items) number targets.Nowhere }
    {
        let count = self.targets.len();
        if number < count {
            self.targets[count - 1 - number]
        } else {
            SpelledTarget::Nowhere
        }
    }

    /// Where the link or the image of a number leads.
    pub fn link_target(&self, number: usize) -> LinkTarget<'_>
        ensures { (at : ℕ → inline.LinkTexts) → target_texts at result ≡ (slice_index_or (targets_view at self.now) number no_spelled).leads }
    {
        match self.target(number) {
            SpelledTarget::Resource { destination, title } => LinkTarget::Resource(LinkTexts {
                destination: self.text_in(destination),
                title: Some(self.text_in(title)),
            }),
            SpelledTarget::Definition(place) => LinkTarget::Definition(place),
            SpelledTarget::Nowhere => LinkTarget::Resource(NOWHERE),
            SpelledTarget::Call(_) => LinkTarget::Resource(NOWHERE),
        }
    }

    /// The label of the call of a number.
    pub fn call_label(&self, number: usize) -> &str
        ensures { (at : ℕ → inline.LinkTexts) → content_codes result.now ≡ (slice_index_or (targets_view at self.now) number no_spelled).label }
    {
        match self.target(number) {
            SpelledTarget::Call(label) => self.text_in(label),
            SpelledTarget::Resource { .. } => "",
            SpelledTarget::Definition(_) => "",
            SpelledTarget::Nowhere => "",
        }
    }

    /// The raw text of a number among those that are joined.
    pub fn raw_text(&self, number: usize) -> &str
        ensures { result.now ≡ slice_index_or (raws_view self.now) number [] }
    {
        if number < self.raw_texts.len() {
            self.text_in(self.raw_texts[number])
        } else {
            ""
        }
    }
}

/// Where a link leads whose label has no definition.
const NOWHERE: LinkTexts<'static> = LinkTexts {
    destination: "",
    title: None,
};

/// What a link, an image or a call is made of. `label` is overwritten.
fn read_target<T: Tables, A: Allocator + Clone>(
    text: &mut String<A>,
    label: &mut Vec<u8, A>,
    texts: &TextEvents<'_, T, A>,
    events: &[Event],
    name: Name,
    held: Held,
) -> Result<SpelledTarget, AllocError>
    ensures { (ds : List Definition) (at : Spot) (inside : List AnEvent) → HasLabels texts.now.definitions.now (labels_of ds) →
        PlacesFit texts.now.bytes.now at events.now → IsHeld events.now inside 0 held →
        IfOk result (λ target. IsTarget (linked_at ds) (string_bytes text.old) (string_bytes text.new) target
        (spelled_by (T.reference_of texts.now.tables.now) texts.now.bytes.now (leads_to (linked_by ds)) name inside)) }
{
    if is_call(name) {
        return read_call(text, label, texts.bytes, events, held);
    }
    if held.resource {
        return read_resource(text, texts, events, held);
    }
    let target = read_reference(label, texts, events, held)?;
    Ok(target)
}

/// Whether this is the name of a footnote call.
fn is_call(name: Name) -> bool
    ensures { result ≡ same_name name names.GfmFootnoteCall }
{
    name == Name::GfmFootnoteCall
}

/// Appends the label of a call. `label` is overwritten.
fn read_call<A: Allocator + Clone>(
    text: &mut String<A>,
    label: &mut Vec<u8, A>,
    bytes: &[u8],
    events: &[Event],
    held: Held,
) -> Result<SpelledTarget, AllocError>
    ensures { (at : ℕ → Leads) → is_utf8 (label_at bytes.now events.now (label_place held)) ≡ true →
        IfOk result (λ target. IsTarget at (string_bytes text.old) (string_bytes text.new) target
        (spelled nowhere (content_codes (label_at bytes.now events.now (label_place held))))) }
{
    read_label(label, bytes, events, held)?;
    let range = push_piece(text, text_of(label))?;
    Ok(SpelledTarget::Call(range))
}

/// Appends the destination and the title of a resource.
fn read_resource<T: Tables, A: Allocator + Clone>(
    text: &mut String<A>,
    texts: &TextEvents<'_, T, A>,
    events: &[Event],
    held: Held,
) -> Result<SpelledTarget, AllocError>
    ensures { (at : ℕ → Leads) (inside : List AnEvent) → IsHeld events.now inside 0 held →
        IfOk result (λ target. IsTarget at (string_bytes text.old) (string_bytes text.new) target
        (spelled (resource_by (T.reference_of texts.now.tables.now) texts.now.bytes.now inside) [])) }
{
    let destination = push_string(text, texts, events, held.destination)?;
    let title = push_string(text, texts, events, held.title)?;
    Ok(SpelledTarget::Resource { destination, title })
}

/// Finds the definition of a label. `label` is overwritten.
fn read_reference<T, A: Allocator + Clone>(
    label: &mut Vec<u8, A>,
    texts: &TextEvents<'_, T, A>,
    events: &[Event],
    held: Held,
) -> Result<SpelledTarget, AllocError>
    ensures { (labels : List (List ℕ)) → HasLabels texts.now.definitions.now labels →
        IfOk result (λ target. target ≡ found_target (first_match (content_codes (label_at texts.now.bytes.now events.now (label_place held))) labels)) }
{
    read_label(label, texts.bytes, events, held)?;
    let found = texts.definitions.find(label)?;
    match found {
        Some(place) => Ok(SpelledTarget::Definition(place)),
        None => Ok(SpelledTarget::Nowhere),
    }
}

/// Sets `label` to the text of the label; empty if there is a resource, or none.
fn read_label<A: Allocator>(
    label: &mut Vec<u8, A>,
    bytes: &[u8],
    events: &[Event],
    held: Held,
) -> Result<(), AllocError>
    ensures { OnOk result (label.new.items ≡ label_at bytes.now events.now (label_place held)) }
{
    label.clear();
    if let Some(index) = held.label() {
        push_text_at(label, bytes, events, index)?;
    }
    Ok(())
}

/// Appends the string at an index, as it is written, or nothing.
fn push_string<T: Tables, A: Allocator + Clone>(
    text: &mut String<A>,
    texts: &TextEvents<'_, T, A>,
    events: &[Event],
    index: Option<usize>,
) -> Result<Range, AllocError>
    ensures { (string : List AnEvent) → IsFoundAt events.now index string →
        IfOk result (λ range. IsJoined (string_bytes text.old) (string_bytes text.new) range
        (written (string_first (T.reference_of texts.now.tables.now) texts.now.bytes.now string))) }
{
    let start = text.len();
    push_string_at(text, texts, events, index)?;
    let end = text.len();
    Ok(Range { start, end })
}

fn push_string_at<T: Tables, A: Allocator + Clone>(
    text: &mut String<A>,
    texts: &TextEvents<'_, T, A>,
    events: &[Event],
    index: Option<usize>,
) -> Result<(), AllocError>
    ensures { (string : List AnEvent) → IsFoundAt events.now index string →
        OnOk result (string_bytes text.new ≡ string_bytes text.old ++ written (string_first (T.reference_of texts.now.tables.now) texts.now.bytes.now string)) }
{
    let Some(index) = index else {
        return Ok(());
    };
    let string = events_after(events, index);
    push_written(text, texts.bytes, texts.tables, string)?;
    Ok(())
}

/// Appends a piece.
fn push_piece<A: Allocator>(text: &mut String<A>, piece: &str) -> Result<Range, AllocError>
    ensures { IfOk result (λ range. IsJoined (string_bytes text.old) (string_bytes text.new) range piece.now) }
{
    let start = text.len();
    text.push_str(piece)?;
    let end = text.len();
    Ok(Range { start, end })
}

/// The index of the next event from an index on that has the name of raw text, or the end.
fn next_raw(events: &[Event], from: usize) -> usize
    requires { from ≤ length events.now }
    ensures raws { (bytes : List ℕ) → raws_by bytes (drop result events.now) ≡ raws_by bytes (drop from events.now) }
    ensures within { (from ≤ result) × (result ≤ length events.now) }
{
    let mut index = from;
    while index < events.len() {
        if sequence_of(events[index].name).is_some() {
            return index;
        }
        index += 1;
    }
    index
}

/// The index after the last event before an end that says where something leads, or 0.
fn last_noted(events: &[Event], end: usize) -> usize
    requires { end ≤ length events.now }
    ensures targets { (names : Names) (bytes : List ℕ) (leads : Target → Leads) →
        targets_by names bytes leads (drop result events.now) ≡ targets_by names bytes leads (drop end events.now) }
    ensures held { (inner : AHeld) (outer : List AHeld) →
        HoldsAt events.now (drop end events.now) inner outer → HoldsAt events.now (drop result events.now) inner outer }
    ensures within { result ≤ end }
{
    let mut last = end;
    while last > 0 {
        let name = events[last - 1].name;
        if is_media(name) || is_held(name) {
            return last;
        }
        last -= 1;
    }
    last
}

/// The name of the sequences around the raw text that an event enters, if it is to be joined. The
/// events are those after it.
fn joined_sequence(bytes: &[u8], event: &Event, events: &[Event]) -> Option<Name>
    ensures { (others : List (List ℕ)) → joined_first bytes.now result events.now others ≡ raws_next bytes.now event.now.kind event.now.name events.now others }
{
    if is_exit(event.kind) {
        return None;
    }
    let sequence = sequence_of(event.name)?;
    match whole_piece(bytes, sequence, events) {
        Some(_) => None,
        None => Some(sequence),
    }
}

/// The events after the one at an index.
fn events_after(events: &[Event], index: usize) -> &[Event]
    ensures { result.now ≡ drop (index + 1) events.now }
{
    if index < events.len() {
        &events[index + 1..]
    } else {
        &[]
    }
}
