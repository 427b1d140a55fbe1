//! Links, images and footnote calls: what is in them that says where they lead (CommonMark 6.3 and
//! 6.4, GFM footnotes).
//!
//!     Link | Image    ::= Label (Reference | Resource)?
//!     GfmFootnoteCall ::= Label
ghost use Rattle.std.specs.Prelude.{◌≡◌, ◌∷◌, ◌++◌, [], OnOk, drop, reverse};
ghost use Rattle.engine_events.specs.Names.{is_listed};
ghost use Rattle.event_grammar.specs.References.{media_names};
ghost use Rattle.compile_strings.specs.LabelEnd.{first_held, first_of, held_with, is_held, label_place, new_held};

use engine_events::event::Name;
use std::alloc::{AllocError, Allocator};

/// The indices of the enters in a link, an image or a call, without those in others in it. Of equal
/// names the first counts.
#[derive(Clone, Copy)]
pub(crate) struct Held {
    /// Whether there is a resource.
    pub resource: bool,
    /// The string of its destination.
    pub destination: Option<usize>,
    /// The string of its title.
    pub title: Option<usize>,
    /// The string of a reference.
    pub reference: Option<usize>,
    /// The text of the label.
    pub text: Option<usize>,
}

impl Held {
    /// Nothing is in it after the place that was read.
    pub fn new() -> Held
        ensures { result ≡ new_held }
    {
        Held {
            resource: false,
            destination: None,
            title: None,
            reference: None,
            text: None,
        }
    }

    /// With an event before those that are known, by its name and the index of its enter.
    pub fn with(self, name: Name, index: usize) -> Held
        ensures { result ≡ held_with name index self }
    {
        Held {
            resource: self.resource || name == Name::Resource,
            destination: first_of(
                name == Name::ResourceDestinationString,
                index,
                self.destination,
            ),
            title: first_of(name == Name::ResourceTitleString, index, self.title),
            reference: first_of(name == Name::ReferenceString, index, self.reference),
            text: first_of(name == Name::LabelText, index, self.text),
        }
    }

    /// The index of the label, or none if there is a resource.
    pub fn label(self) -> Option<usize>
        ensures { result ≡ label_place self }
    {
        if self.resource {
            return None;
        }
        match self.reference {
            Some(index) => Some(index),
            None => self.text,
        }
    }
}

/// This index if `is_one`, otherwise the known one.
fn first_of(is_one: bool, index: usize, known: Option<usize>) -> Option<usize>
    ensures { result ≡ first_of is_one index known }
{
    if is_one { Some(index) } else { known }
}

/// Whether an event of this name says where the event around it leads.
pub(crate) fn is_held(name: Name) -> bool
    ensures { result ≡ is_held name }
{
    name == Name::Resource
        || name == Name::ResourceDestinationString
        || name == Name::ResourceTitleString
        || name == Name::ReferenceString
        || name == Name::LabelText
}

/// Whether this is the name of a link, an image or a call.
pub fn is_media(name: Name) -> bool
    ensures { result ≡ is_listed media_names name }
{
    name == Name::Link || name == Name::Image || name == Name::GfmFootnoteCall
}

/// The links, images and calls that are open behind the place up to which events were read.
#[derive(Drop)]
pub(crate) struct Open<A: Allocator> {
    /// The innermost one, or one for the text.
    inner: Held,
    /// Those around it, the innermost last.
    outer: Vec<Held, A>,
}

impl<A: Allocator> Open<A> {
    /// The end of a text.
    pub fn new(alloc: A) -> Open<A>
        ensures inner { result.inner ≡ new_held }
        ensures outer { result.outer.items ≡ [] }
    {
        Open {
            inner: Held::new(),
            outer: Vec::new(alloc),
        }
    }

    /// One more is read from its exit on.
    pub fn exit(&mut self) -> Result<(), AllocError>
        ensures inner { OnOk result (self.new.inner ≡ new_held) }
        ensures outer { OnOk result (self.new.outer.items ≡ self.old.outer.items ++ self.old.inner ∷ []) }
    {
        self.outer.push(self.inner)?;
        self.inner = Held::new();
        Ok(())
    }

    /// The innermost one is read up to its enter. Returns what is in it.
    pub fn enter(&mut self) -> Held
        ensures held { result ≡ self.old.inner }
        ensures inner { self.new.inner ≡ first_held (reverse self.old.outer.items) }
        ensures outer { reverse self.new.outer.items ≡ drop 1 (reverse self.old.outer.items) }
    {
        let held = self.inner;
        self.inner = match self.outer.pop() {
            Some(outer) => outer,
            None => Held::new(),
        };
        held
    }

    /// An event of another name is entered, at this index.
    pub fn note(&mut self, name: Name, index: usize)
        ensures inner { self.new.inner ≡ held_with name index self.old.inner }
        ensures outer { self.new.outer.items ≡ self.old.outer.items }
    {
        if is_held(name) {
            self.inner = self.inner.with(name, index);
        }
    }
}
