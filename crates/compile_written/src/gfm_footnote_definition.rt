//! The labels of footnote definitions (in neither standard).
//!
//!     definition ::= GfmFootnoteDefinitionPrefix block*
//!     prefix     ::= GfmFootnoteDefinitionLabel DefinitionMarker
//!
//! The content of a container begins with its first prefix, that of a list with its first item.
ghost use Rattle.std.specs.Prelude.{◌≡◌, ◌<◌, ◌≤◌, ◌+◌, ◌^◌, ◌++◌, Bool, [], ◌∷◌, ℕ, List, None, IfOk, OnOk, drop, length};
ghost use Rattle.engine_events.specs.Names.{is_listed};
ghost use Rattle.engine_events.specs.declared.event.Event.{Event as AnEvent};
ghost use Rattle.definition_text.specs.Columns.{Code};
ghost use Rattle.definition_inline.specs.CharacterReference.{Names};
ghost use Rattle.inline_labels.specs.Table.{HasLabels};
ghost use Rattle.event_grammar.specs.Trees.{Nodes, events_of, AreNodes};
ghost use Rattle.event_meaning.specs.Blocks.{blocks_of};
ghost use Rattle.event_meaning.specs.Spelled.{footnotes};
ghost use Rattle.event_references.specs.Views.{text_first};
ghost use Rattle.compile_written.specs.GfmFootnoteDefinition.{Notes, HasNotes, container_names, enter_content, enter_note, exit_note, first_held, has_begun, has_definition};
ghost use Rattle.compile_written.specs.GfmFootnoteDefinition.{holder_view, holder_views, label_at, label_codes, label_string, new_held, start_name, the_document};

use crate::child::{child, has_name, inside_child};
use engine_events::event::{Event, Kind, Name};
use event_references::label::push_text_at;
use inline_labels::LabelTable;
use std::alloc::{AllocError, Allocator};

const CONTAINER_NAMES: [Name; 5] = [
    Name::BlockQuote,
    Name::ListItem,
    Name::GfmFootnoteDefinition,
    Name::ListOrdered,
    Name::ListUnordered,
];

/// A container or a list that is open, or the document.
#[derive(Clone, Copy)]
pub struct Holder {
    /// The index of the event after its enter, if it is a footnote definition.
    footnote: Option<usize>,
    /// What its content begins with, until that is passed.
    awaited: Option<Name>,
}

impl Holder {
    fn document() -> Holder
        ensures { (bytes : List ℕ) → (events : List AnEvent) → holder_view bytes events result ≡ the_document }
    {
        Holder {
            footnote: None,
            awaited: None,
        }
    }

    /// A container of this name, whose children begin at an index.
    fn new(name: Name, index: usize) -> Holder
        ensures { (bytes : List ℕ) → (events : List AnEvent) → holder_view bytes events result ≡ new_held name (label_at bytes events index) }
    {
        Holder {
            footnote: if name == Name::GfmFootnoteDefinition {
                Some(index)
            } else {
                None
            },
            awaited: Some(start_of(name)),
        }
    }

    /// Whether a child of this name is in the content.
    fn has_begun(self, name: Name) -> bool
        ensures { result ≡ has_begun self.awaited name }
    {
        match self.awaited {
            None => true,
            Some(start) => name == start,
        }
    }
}

/// What the content of a container begins with.
fn start_of(name: Name) -> Name
    ensures { result ≡ start_name name }
{
    if name == Name::BlockQuote {
        Name::BlockQuotePrefix
    } else if name == Name::ListItem {
        Name::ListItemPrefix
    } else if name == Name::GfmFootnoteDefinition {
        Name::GfmFootnoteDefinitionPrefix
    } else {
        Name::ListItem
    }
}

/// What is known after some events.
#[derive(Drop)]
struct Walk<A: Allocator + Clone> {
    /// The labels of the footnote definitions that ended.
    labels: LabelTable<A>,
    /// How many footnote definitions ended.
    count: usize,
    /// The innermost container that is open, or the document.
    inner: Holder,
    /// Those around it, the innermost last.
    outer: Vec<Holder, A>,
    /// How many events are open that aren't in the content of a container.
    skipped: usize,
}

/// Returns the labels of the footnote definitions of a list of events, in the order in which these
/// end: of equal labels the first to end counts. The only error is out of memory.
pub fn footnote_labels<A: Allocator + Clone>(
    alloc: A,
    bytes: &[u8],
    events: &[Event],
) -> Result<LabelTable<A>, AllocError>
    ensures { (names : Names) (top : Bool) (ns : Nodes) → AreNodes ns → events.now ≡ events_of ns →
        IfOk result (λ table. HasLabels table (footnotes (blocks_of names bytes.now top ns))) }
{
    if !has_definition(events) {
        return LabelTable::new(alloc);
    }
    let mut walk = Walk {
        labels: LabelTable::new(alloc.clone()?)?,
        count: 0,
        inner: Holder::document(),
        outer: Vec::new(alloc.clone()?),
        skipped: 0,
    };
    let mut label = Vec::new(alloc);
    for (index, event) in events.iter().enumerate() {
        match event.kind {
            Kind::Enter => walk.enter(event.name, index + 1)?,
            Kind::Exit => walk.exit(&mut label, bytes, events)?,
        }
    }
    let Walk { labels, .. } = walk;
    Ok(labels)
}

/// Whether a footnote definition is among events.
fn has_definition(events: &[Event]) -> bool
    ensures { result ≡ has_definition events.now }
{
    has_name(events, Name::GfmFootnoteDefinition)
}

impl<A: Allocator + Clone> Walk<A> {
    /// An event of this name is entered, whose children begin at an index.
    fn enter(&mut self, name: Name, index: usize) -> Result<(), AllocError>
        requires { self.old.skipped + 1 < 2 ^ 64 }
        ensures notes { (bytes : List ℕ) (events : List AnEvent) (s : Notes) → HasNotes bytes events self.old s →
            OnOk result (HasNotes bytes events self.new (enter_note name (label_at bytes events index) s)) }
        ensures skipped { self.new.skipped ≤ self.old.skipped + 1 }
        ensures count { self.new.count ≡ self.old.count }
    {
        if self.skipped == 0 && self.inner.has_begun(name) {
            self.inner.awaited = None;
            self.enter_content(name, index)?;
        } else {
            self.skipped += 1;
        }
        Ok(())
    }

    /// An event in the content of the innermost container is entered.
    fn enter_content(&mut self, name: Name, index: usize) -> Result<(), AllocError>
        requires { self.old.skipped ≡ 0 }
        ensures notes { (bytes : List ℕ) (events : List AnEvent) (s : Notes) → HasNotes bytes events self.old s → s.inner.awaited ≡ None →
            OnOk result (HasNotes bytes events self.new (enter_content (is_listed container_names name) name (label_at bytes events index) s)) }
        ensures skipped { self.new.skipped ≤ 1 }
        ensures count { self.new.count ≡ self.old.count }
    {
        if CONTAINER_NAMES.contains(&name) {
            self.outer.push(self.inner)?;
            self.inner = Holder::new(name, index);
        } else {
            self.skipped = 1;
        }
        Ok(())
    }

    /// The innermost event is exited. `label` is overwritten.
    fn exit(
        &mut self,
        label: &mut Vec<u8, A>,
        bytes: &[u8],
        events: &[Event],
    ) -> Result<(), AllocError>
        requires { self.old.count + 1 < 2 ^ 64 }
        ensures notes { (s : Notes) → HasNotes bytes.now events.now self.old s → OnOk result (HasNotes bytes.now events.now self.new (exit_note s)) }
        ensures skipped { self.new.skipped ≤ self.old.skipped }
        ensures count { self.new.count ≤ self.old.count + 1 }
    {
        if self.skipped != 0 {
            self.skipped -= 1;
            return Ok(());
        }
        if let Some(index) = self.inner.footnote {
            self.end(label, bytes, events_from(events, index))?;
        }
        self.leave();
        Ok(())
    }

    /// A footnote definition ends, with these events after its enter. `label` is overwritten.
    fn end(
        &mut self,
        label: &mut Vec<u8, A>,
        bytes: &[u8],
        events: &[Event],
    ) -> Result<(), AllocError>
        requires { self.old.count + 1 < 2 ^ 64 }
        ensures labels { (ended : List (List Code)) → HasLabels self.old.labels ended → self.old.count ≡ length ended →
            OnOk result (HasLabels self.new.labels (ended ++ label_codes bytes.now events.now ∷ [])) }
        ensures count { OnOk result (self.new.count ≡ self.old.count + 1) }
        ensures most { self.new.count ≤ self.old.count + 1 }
        ensures inner { self.new.inner ≡ self.old.inner }
        ensures outer { self.new.outer ≡ self.old.outer }
        ensures skipped { self.new.skipped ≡ self.old.skipped }
    {
        label.clear();
        push_footnote_label(label, bytes, events)?;
        self.labels.insert(label, self.count)?;
        self.count += 1;
        Ok(())
    }

    /// The container around the innermost one is the innermost.
    fn leave(&mut self)
        ensures inner { (bytes : List ℕ) (events : List AnEvent) →
            holder_view bytes events self.new.inner ≡ first_held (holder_views bytes events self.old.outer.items) }
        ensures outer { (bytes : List ℕ) (events : List AnEvent) →
            holder_views bytes events self.new.outer.items ≡ drop 1 (holder_views bytes events self.old.outer.items) }
        ensures labels { self.new.labels ≡ self.old.labels }
        ensures count { self.new.count ≡ self.old.count }
        ensures skipped { self.new.skipped ≡ self.old.skipped }
    {
        self.inner = match self.outer.pop() {
            Some(holder) => holder,
            None => Holder::document(),
        };
    }
}

/// The events from an index on.
fn events_from(events: &[Event], index: usize) -> &[Event]
    ensures { result.now ≡ drop index events.now }
{
    if index <= events.len() {
        &events[index..]
    } else {
        &[]
    }
}

/// Appends the label of a footnote definition, by the events after its enter.
pub fn push_footnote_label<A: Allocator>(
    label: &mut Vec<u8, A>,
    bytes: &[u8],
    events: &[Event],
) -> Result<(), AllocError>
    ensures { OnOk result (label.new.items ≡ label.old.items ++ text_first bytes.now (label_string events.now)) }
{
    push_text_at(label, bytes, label_string(events), 0)
}

/// The events of a footnote definition's label, from its enter on.
fn label_string(events: &[Event]) -> &[Event]
    ensures { result.now ≡ label_string events.now }
{
    child(
        inside_child(
            inside_child(events, Name::GfmFootnoteDefinitionPrefix),
            Name::GfmFootnoteDefinitionLabel,
        ),
        Name::GfmFootnoteDefinitionLabelString,
    )
}
