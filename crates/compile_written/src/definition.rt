//! Link reference definitions: labels, destinations and titles (CommonMark 4.7).
//!
//!     definition  ::= DefinitionLabel DefinitionMarker DefinitionDestination DefinitionTitle?
//!     label       ::= DefinitionLabelMarker DefinitionLabelString DefinitionLabelMarker
//!     destination ::= DefinitionDestinationLiteral | DefinitionDestinationRaw
ghost use Rattle.std.specs.Prelude.{◌≡◌, List, [], ◌∷◌, ◌++◌, map, IfOk, OnOk, string_bytes};
ghost use Rattle.definition_inline.specs.Definition.{Definition};
ghost use Rattle.engine_events.specs.declared.event.Name.TheVariants as names;
ghost use Rattle.inline_links.specs.View.{link_texts_view};
ghost use Rattle.event_grammar.specs.InGrammar.{PlacesFit};
ghost use Rattle.event_grammar.specs.References.{named};
ghost use Rattle.event_grammar.specs.Trees.{Nodes, events_of, AreNodes};
ghost use Rattle.event_grammar.specs.declared.spot.Spot.{Spot};
ghost use Rattle.event_meaning.specs.Spelled.{definition_of};
ghost use Rattle.compile_written.specs.Definition.{HasDefinitions, definition_after, definitions_in, destination_written, has_definition, label_string};
ghost use Rattle.compile_written.specs.Definition.{leads, literal_events, raw_events, starts_definition, target_view, title_written};

use crate::child::{child, has_name, inside_child};
use crate::string::push_written;
use engine_events::event::{Event, Kind, Name};
use event_references::label::push_text_at;
use inline_labels::LabelTable;
use inline_links::LinkTexts;
use markdown_options::Tables;
use std::alloc::{AllocError, Allocator};

/// The definitions of a list of events.
#[derive(Drop)]
pub struct Definitions<A: Allocator + Clone> {
    /// The place of the first definition for each label.
    pub labels: LabelTable<A>,
    /// Where the definition at each place leads.
    targets: Vec<WrittenTarget<A>, A>,
    alloc: A,
}

/// Where a definition leads.
#[derive(Drop)]
struct WrittenTarget<A: Allocator> {
    /// The destination, as a string that stands for it.
    destination: String<A>,
    /// The title, as a string that stands for it. It is empty if there is none.
    title: String<A>,
}

/// Returns the definitions of a list of events, in order, in any container. The only error is out
/// of memory.
pub fn read_definitions<T: Tables, A: Allocator + Clone>(
    alloc: A,
    bytes: &[u8],
    tables: &T,
    events: &[Event],
) -> Result<Definitions<A>, AllocError>
    ensures { (ns : Nodes) (at : Spot) → AreNodes ns → events.now ≡ events_of ns → PlacesFit bytes.now at events.now →
        IfOk result (λ found. HasDefinitions found (map (definition_of (T.reference_of tables.now) bytes.now) (named names.Definition ns))) }
{
    let found = definitions_in(alloc, bytes, tables, events)?;
    Ok(found)
}

/// The definitions among events.
fn definitions_in<T: Tables, A: Allocator + Clone>(
    alloc: A,
    bytes: &[u8],
    tables: &T,
    events: &[Event],
) -> Result<Definitions<A>, AllocError>
    ensures { IfOk result (λ found. HasDefinitions found (definitions_in (T.reference_of tables.now) bytes.now events.now)) }
{
    let mut found = Definitions::new(alloc.clone()?)?;
    if !has_definition(events) {
        return Ok(found);
    }
    let mut label = Vec::new(alloc);
    for (index, event) in events.iter().enumerate() {
        if starts_definition(event) {
            found.read(&mut label, bytes, tables, &events[index + 1..])?;
        }
    }
    Ok(found)
}

/// Whether a definition is among events.
fn has_definition(events: &[Event]) -> bool
    ensures { result ≡ has_definition events.now }
{
    has_name(events, Name::Definition)
}

/// Whether a definition begins.
fn starts_definition(event: &Event) -> bool
    ensures { result ≡ starts_definition event.now }
{
    match event.kind {
        Kind::Enter => event.name == Name::Definition,
        Kind::Exit => false,
    }
}

impl<A: Allocator + Clone> Definitions<A> {
    fn new(alloc: A) -> Result<Definitions<A>, AllocError>
        ensures { IfOk result (λ found. HasDefinitions found []) }
    {
        Ok(Definitions {
            labels: LabelTable::new(alloc.clone()?)?,
            targets: Vec::new(alloc.clone()?),
            alloc,
        })
    }

    /// Returns where the definitions lead, by their places. The only error is out of memory.
    pub fn links(&self) -> Result<Vec<LinkTexts<'_>, A>, AllocError>
        ensures { (ds : List Definition) → HasDefinitions self.now ds → IfOk result (λ links. map link_texts_view links.items ≡ map leads ds) }
    {
        let mut links = Vec::new(self.alloc.clone()?);
        for target in &self.targets {
            links.push(target.link())?;
        }
        Ok(links)
    }

    /// Reads a definition, by the events after its enter. `label` is overwritten.
    fn read<T: Tables>(
        &mut self,
        label: &mut Vec<u8, A>,
        bytes: &[u8],
        tables: &T,
        events: &[Event],
    ) -> Result<(), AllocError>
        ensures { (ds : List Definition) → HasDefinitions self.old ds →
            OnOk result (HasDefinitions self.new (ds ++ definition_after (T.reference_of tables.now) bytes.now events.now ∷ [])) }
    {
        label.clear();
        push_text_at(label, bytes, label_string(events), 0)?;
        self.labels.insert(label, self.targets.len())?;
        let target = read_target(self.alloc.clone()?, bytes, tables, events)?;
        self.targets.push(target)?;
        Ok(())
    }
}

impl<A: Allocator> WrittenTarget<A> {
    fn link(&self) -> LinkTexts<'_>
        ensures { link_texts_view result ≡ target_view self.now }
    {
        LinkTexts {
            destination: self.destination.as_str(),
            title: Some(self.title.as_str()),
        }
    }
}

/// The events of a definition's label, from its enter on.
fn label_string(events: &[Event]) -> &[Event]
    ensures { result.now ≡ label_string events.now }
{
    child(
        inside_child(events, Name::DefinitionLabel),
        Name::DefinitionLabelString,
    )
}

/// Where a definition leads, by the events after its enter.
fn read_target<T: Tables, A: Allocator + Clone>(
    alloc: A,
    bytes: &[u8],
    tables: &T,
    events: &[Event],
) -> Result<WrittenTarget<A>, AllocError>
    ensures { IfOk result (λ target. target_view target ≡ leads (definition_after (T.reference_of tables.now) bytes.now events.now)) }
{
    let mut destination = String::new(alloc.clone()?);
    push_destination(&mut destination, bytes, tables, events)?;
    let mut title = String::new(alloc);
    push_title(&mut title, bytes, tables, events)?;
    Ok(WrittenTarget { destination, title })
}

/// Appends the destination of a definition, by the events after its enter.
fn push_destination<T: Tables, A: Allocator>(
    out: &mut String<A>,
    bytes: &[u8],
    tables: &T,
    events: &[Event],
) -> Result<(), AllocError>
    ensures { OnOk result (string_bytes out.new ≡ string_bytes out.old ++ destination_written (T.reference_of tables.now) bytes.now events.now) }
{
    push_written(out, bytes, tables, literal_events(events))?;
    push_written(out, bytes, tables, raw_events(events))?;
    Ok(())
}

/// The events in the string of a destination between `<` and `>`, if there is one.
fn literal_events(events: &[Event]) -> &[Event]
    ensures { result.now ≡ literal_events events.now }
{
    let place = inside_child(events, Name::DefinitionDestination);
    inside_child(
        inside_child(place, Name::DefinitionDestinationLiteral),
        Name::DefinitionDestinationString,
    )
}

/// The events in the string of a destination without brackets, if there is one.
fn raw_events(events: &[Event]) -> &[Event]
    ensures { result.now ≡ raw_events events.now }
{
    let place = inside_child(events, Name::DefinitionDestination);
    inside_child(
        inside_child(place, Name::DefinitionDestinationRaw),
        Name::DefinitionDestinationString,
    )
}

/// Appends the title of a definition, by the events after its enter.
fn push_title<T: Tables, A: Allocator>(
    out: &mut String<A>,
    bytes: &[u8],
    tables: &T,
    events: &[Event],
) -> Result<(), AllocError>
    ensures { OnOk result (string_bytes out.new ≡ string_bytes out.old ++ title_written (T.reference_of tables.now) bytes.now events.now) }
{
    let title = inside_child(events, Name::DefinitionTitle);
    push_written(
        out,
        bytes,
        tables,
        inside_child(title, Name::DefinitionTitleString),
    )
}
