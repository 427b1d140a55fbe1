//! Links, images and footnote calls whose labels have no definition.
ghost use Rattle.std.specs.Prelude.{◌≡◌, ◌∷◌, ◌++◌, [], true, false, List, ℕ, IfOk, OnOk, drop, map, reverse};
ghost use Rattle.std.specs.Option.{option_map, option_or};
ghost use Rattle.engine_events.specs.Names.{is_listed};
ghost use Rattle.engine_events.specs.declared.event.Event.{Event as AnEvent};
ghost use Rattle.engine_events.specs.declared.event.Name.TheVariants as names;
ghost use Rattle.event_grammar.specs.References.{media_names, leads};
ghost use Rattle.event_grammar.specs.Marked.{marked_from};
ghost use Rattle.event_references.specs.Texts.{texts_of};
ghost use Rattle.event_references.specs.Lost.{new_media, noted, is_part, only_if, label_of, around, lost_from};
ghost use Rattle.event_references.specs.Views.{text_at, media_view, AreLabels};

use crate::labels::is_label;
use engine_events::event::{Event, Kind, Name};
use inline_labels::LabelTable;
use std::alloc::{AllocError, Allocator};

/// A link, an image or a call that is open. Its parts are indices of their enters.
#[derive(Clone, Copy)]
pub struct Media {
    /// Whether it has a resource.
    resource: bool,
    /// The string of its reference.
    reference: Option<usize>,
    /// Its text.
    text: Option<usize>,
}

impl Media {
    fn new() -> Media
        ensures { (bytes : List ℕ) → (events : List AnEvent) → media_view bytes events result ≡ new_media }
    {
        Media {
            resource: false,
            reference: None,
            text: None,
        }
    }

    /// Records an event inside it, by its name and index.
    fn note(&mut self, name: Name, index: usize)
        ensures { (bytes : List ℕ) → (events : List AnEvent) →
            media_view bytes events self.new ≡ noted name (text_at bytes events index) (media_view bytes events self.old) }
    {
        if is_part(name) {
            *self = self.noted(name, index);
        }
    }

    fn noted(self, name: Name, index: usize) -> Media
        ensures { (bytes : List ℕ) → (events : List AnEvent) →
            media_view bytes events result ≡ noted name (text_at bytes events index) (media_view bytes events self) }
    {
        Media {
            resource: self.resource || name == Name::Resource,
            reference: first_of(self.reference, name == Name::ReferenceString, index),
            text: first_of(self.text, name == Name::LabelText, index),
        }
    }

    /// The index of its label, or none if it has a resource.
    fn label(self) -> Option<usize>
        ensures { (bytes : List ℕ) → (events : List AnEvent) →
            option_map (text_at bytes events) result ≡ label_of (media_view bytes events self) }
    {
        if self.resource {
            return None;
        }
        match self.reference {
            Some(index) => Some(index),
            None => self.text,
        }
    }
}

/// Whether an event of this name leads to a definition.
fn is_media(name: Name) -> bool
    ensures { result ≡ is_listed media_names name }
{
    matches!(name, Name::Link | Name::Image | Name::GfmFootnoteCall)
}

/// Whether an event of this name decides which label the event around it has.
fn is_part(name: Name) -> bool
    ensures { result ≡ is_part name }
{
    name == Name::Resource || name == Name::ReferenceString || name == Name::LabelText
}

/// The known index, otherwise this one if `is_one`.
fn first_of(known: Option<usize>, is_one: bool, index: usize) -> Option<usize>
    ensures { (text : ℕ → List ℕ) → option_map text result ≡ option_or (option_map text known) (only_if is_one (text index)) }
{
    match known {
        Some(known) => Some(known),
        None => { if is_one { Some(index) } else { None } }
    }
}

/// The links, images and calls that are open.
#[derive(Drop)]
struct Open<A: Allocator> {
    /// The innermost one, or one for the document.
    inner: Media,
    /// Those around it, the innermost last.
    outer: Vec<Media, A>,
}

impl<A: Allocator> Open<A> {
    /// Records the enter of an event of this name.
    fn enter(&mut self, name: Name, index: usize) -> Result<(), AllocError>
        ensures media { (bytes : List ℕ) → (events : List AnEvent) → is_listed media_names name ≡ true → OnOk result
            ((media_view bytes events self.new.inner ≡ new_media) × (self.new.outer.items ≡ self.old.outer.items ++ self.old.inner ∷ [])) }
        ensures other { (bytes : List ℕ) → (events : List AnEvent) → is_listed media_names name ≡ false → OnOk result
            ((media_view bytes events self.new.inner ≡ noted name (text_at bytes events index) (media_view bytes events self.old.inner))
            × (self.new.outer.items ≡ self.old.outer.items)) }
    {
        if is_media(name) {
            self.outer.push(self.inner)?;
            self.inner = Media::new();
        } else {
            self.inner.note(name, index);
        }
        Ok(())
    }

    /// Records the exit of the innermost one.
    fn leave(&mut self)
        ensures inner { (bytes : List ℕ) → (events : List AnEvent) →
            media_view bytes events self.new.inner ≡ around (map (media_view bytes events) (reverse self.old.outer.items)) }
        ensures outer { reverse self.new.outer.items ≡ drop 1 (reverse self.old.outer.items) }
    {
        self.inner = match self.outer.pop() {
            Some(media) => media,
            None => Media::new(),
        };
    }
}

/// The labels of the definitions of a list. They are read where the first is asked for.
#[derive(Drop)]
struct Definitions<A: Allocator + Clone> {
    links: Option<LabelTable<A>>,
    footnotes: Option<LabelTable<A>>,
}

impl<A: Allocator + Clone> Definitions<A> {
    /// Whether the label at this index has a definition for an event of this name. `text` is
    /// overwritten.
    fn leads(
        &mut self,
        alloc: &A,
        text: &mut Vec<u8, A>,
        events: &[Event],
        bytes: &[u8],
        marked: &[usize],
        name: Name,
        label: Option<usize>,
    ) -> Result<bool, AllocError>
        requires marked { marked.now ≡ marked_from 0 events.now }
        requires links { AreLabels bytes.now events.now names.DefinitionLabelString self.old.links }
        requires footnotes { AreLabels bytes.now events.now names.GfmFootnoteDefinitionLabelString self.old.footnotes }
        ensures found { IfOk result (λ found. found ≡ leads (texts_of bytes.now names.DefinitionLabelString events.now)
            (texts_of bytes.now names.GfmFootnoteDefinitionLabelString events.now) name (option_map (text_at bytes.now events.now) label)) }
        ensures links { AreLabels bytes.now events.now names.DefinitionLabelString self.new.links }
        ensures footnotes { AreLabels bytes.now events.now names.GfmFootnoteDefinitionLabelString self.new.footnotes }
    {
        if name == Name::GfmFootnoteCall {
            is_label(
                &mut self.footnotes,
                alloc,
                text,
                events,
                bytes,
                Name::GfmFootnoteDefinitionLabelString,
                marked,
                label,
            )
        } else {
            is_label(
                &mut self.links,
                alloc,
                text,
                events,
                bytes,
                Name::DefinitionLabelString,
                marked,
                label,
            )
        }
    }
}

/// Returns the index of the first exit of a link, image or footnote call whose label has no
/// definition in the list, if there is one. `marked` are the indices of events that decide that, in
/// order (`first_fault` of `event_faults` finds them). The only error is out of memory.
pub fn first_lost<A: Allocator + Clone>(
    alloc: A,
    events: &[Event],
    bytes: &[u8],
    marked: &[usize],
) -> Result<Option<usize>, AllocError>
    requires { marked.now ≡ marked_from 0 events.now }
    ensures { IfOk result (λ found. found ≡ lost_from bytes.now (texts_of bytes.now names.DefinitionLabelString events.now)
        (texts_of bytes.now names.GfmFootnoteDefinitionLabelString events.now) new_media [] 0 events.now) }
{
    let mut definitions = Definitions {
        links: None,
        footnotes: None,
    };
    let mut text = Vec::new(alloc.clone()?);
    let mut open = Open {
        inner: Media::new(),
        outer: Vec::new(alloc.clone()?),
    };
    let mut left = marked;
    while let Some((mark, others)) = left.split_first() {
        let index = *mark;
        let event = &events[index];
        match event.kind {
            Kind::Enter => open.enter(event.name, index)?,
            Kind::Exit => {
                if is_media(event.name) {
                    let label = open.inner.label();
                    if !definitions.leads(
                        &alloc, &mut text, events, bytes, marked, event.name, label,
                    )? {
                        return Ok(Some(index));
                    }
                    open.leave();
                }
            }
        }
        left = others;
    }
    Ok(None)
}
