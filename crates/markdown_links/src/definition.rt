//! Link reference definitions (CommonMark 4.7).
ghost use Rattle.std.specs.Prelude.{◌≡◌, ◌++◌, ◌∷◌, [], List, IfOk, OnOk};
ghost use Rattle.markdown_links.specs.Definition.{HasDefinitions, Labelled, definition_of, definitions_from, labelled, place_at};

use crate::kind::is_definition;
use crate::span::Span;
use crate::target::read_label;
use engine_events::event::Event;
use inline_labels::LabelTable;
use std::alloc::{AllocError, Allocator};

/// The definitions of a text, by their labels.
#[derive(Drop)]
pub(crate) struct Definitions<A: Allocator + Clone> {
    /// The number of the first definition for each label.
    labels: LabelTable<A>,
    /// The place of each definition among the links.
    places: Vec<usize, A>,
}

impl<A: Allocator + Clone> Definitions<A> {
    fn new(alloc: A) -> Result<Definitions<A>, AllocError>
        ensures { IfOk result (λ found. HasDefinitions found []) }
    {
        Ok(Definitions {
            labels: LabelTable::new(alloc.clone()?)?,
            places: Vec::new(alloc),
        })
    }

    /// Reads the definitions among links.
    pub(crate) fn read(
        alloc: A,
        bytes: &[u8],
        events: &[Event],
        spans: &[Span],
    ) -> Result<Definitions<A>, AllocError>
        ensures { IfOk result (λ found. HasDefinitions found (definitions_from bytes.now events.now 0 spans.now)) }
    {
        let mut label = Vec::new(alloc.clone()?);
        let mut found = Definitions::new(alloc)?;
        for (place, span) in spans.iter().enumerate() {
            if is_definition(span.kind) {
                read_label(&mut label, bytes, events, span.label)?;
                found.add(&label, place)?;
            }
        }
        Ok(found)
    }

    /// Adds a definition that has this place among the links.
    fn add(&mut self, label: &[u8], place: usize) -> Result<(), AllocError>
        ensures { (ds : List Labelled) → HasDefinitions self.old ds → OnOk result (HasDefinitions self.new (ds ++ labelled label.now place ∷ [])) }
    {
        self.labels.insert(label, self.places.len())?;
        self.places.push(place)?;
        Ok(())
    }

    /// Returns the place of the definition that a link leads to. `label` is overwritten.
    pub(crate) fn of(
        &self,
        label: &mut Vec<u8, A>,
        bytes: &[u8],
        events: &[Event],
        span: &Span,
    ) -> Result<Option<usize>, AllocError>
        ensures { (ds : List Labelled) → HasDefinitions self.now ds → IfOk result (λ place. place ≡ definition_of bytes.now events.now ds span.now) }
    {
        if is_definition(span.kind) || span.label.is_none() {
            return Ok(None);
        }
        read_label(label, bytes, events, span.label)?;
        Ok(self.place(self.labels.find(label)?))
    }

    /// The place of the definition of this number.
    fn place(&self, number: Option<usize>) -> Option<usize>
        ensures { (ds : List Labelled) → HasDefinitions self.now ds → result ≡ place_at ds number }
    {
        self.places.get(number?).copied()
    }
}
