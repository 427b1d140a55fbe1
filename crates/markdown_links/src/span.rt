//! Where links are, and the events in them that say where they lead.
ghost use Rattle.std.specs.Prelude.{◌≡◌, IfOk, OnOk};
ghost use Rattle.std.specs.Option.{option_or};
ghost use Rattle.markdown_links.specs.Span.{entered, exited, is_label, is_target, label_of, new_parts, noted, noted_in, nothing};
ghost use Rattle.markdown_links.specs.Span.{scan_next, scan_view, some_if, span_of, spans_of, target_of};

use crate::kind::{LinkKind, kind_of};
use engine_events::event::{Event, Kind, Name};
use engine_events::place::{Point, START};
use std::alloc::{AllocError, Allocator};

/// A link, with the indices of the events that say where it leads.
#[derive(Clone, Copy)]
pub(crate) struct Span {
    pub(crate) kind: LinkKind,
    /// The index of its enter.
    pub(crate) enter: usize,
    /// Where it starts.
    pub(crate) start: Point,
    /// Where it ends.
    pub(crate) end: Point,
    /// The event that spells its destination.
    pub(crate) target: Option<usize>,
    /// The event that spells its label: that of a definition, or that which leads to one.
    pub(crate) label: Option<usize>,
}

/// What is known of a link whose events were read back from its exit. Those of links in it don't
/// count, and of equal names the first does.
#[derive(Clone, Copy)]
struct Parts {
    /// Where it ends.
    end: Point,
    /// Whether it has a resource (CommonMark 6.3).
    has_resource: bool,
    /// The event that spells its destination or address.
    target: Option<usize>,
    /// The string of a reference, or of the label of a definition.
    label: Option<usize>,
    /// The text between the brackets of a link or an image.
    text: Option<usize>,
}

impl Parts {
    /// Nothing is known of a link but its end.
    fn new(end: Point) -> Parts
        ensures { result ≡ new_parts end }
    {
        Parts {
            end,
            has_resource: false,
            target: None,
            label: None,
            text: None,
        }
    }

    /// What is known with an enter at this index, before the others.
    fn noted(self, name: Name, index: usize) -> Parts
        ensures { result ≡ noted name index self }
    {
        Parts {
            end: self.end,
            has_resource: name == Name::Resource || self.has_resource,
            target: some_if(is_target(name), index, self.target),
            label: some_if(is_label(name), index, self.label),
            text: some_if(name == Name::LabelText, index, self.text),
        }
    }

    /// The event that spells the destination of a link of this kind, which begins at an index.
    fn target(self, kind: LinkKind, index: usize) -> Option<usize>
        ensures { result ≡ target_of kind index self }
    {
        match kind {
            LinkKind::Literal => Some(index),
            LinkKind::Link | LinkKind::Image | LinkKind::Autolink | LinkKind::Definition =>
                self.target,
        }
    }

    /// The event that spells its label. A link with a resource has none, and one without a full
    /// reference has its text.
    fn label(self) -> Option<usize>
        ensures { result ≡ label_of self }
    {
        if self.has_resource {
            return None;
        }
        match self.label {
            Some(label) => Some(label),
            None => self.text,
        }
    }
}

/// This index, or the known one.
fn some_if(is_one: bool, index: usize, known: Option<usize>) -> Option<usize>
    ensures { result ≡ some_if is_one index known }
{
    if is_one { Some(index) } else { known }
}

/// Whether an event of this name spells the destination of a resource or a definition, or is the
/// address in an autolink.
fn is_target(name: Name) -> bool
    ensures { result ≡ is_target name }
{
    name == Name::ResourceDestinationString
        || name == Name::DefinitionDestinationString
        || name == Name::AutolinkProtocol
        || name == Name::AutolinkEmail
}

/// Whether an event of this name spells the label of a reference or a definition.
fn is_label(name: Name) -> bool
    ensures { result ≡ is_label name }
{
    name == Name::ReferenceString || name == Name::DefinitionLabelString
}

fn span_of(kind: LinkKind, index: usize, start: Point, parts: Parts) -> Span
    ensures { result ≡ span_of kind index start parts }
{
    Span {
        kind,
        enter: index,
        start,
        end: parts.end,
        target: parts.target(kind, index),
        label: parts.label(),
    }
}

/// Events, read from the last to the first.
#[derive(Drop)]
struct Scan<A: Allocator> {
    /// The links that were read, from the last to the first.
    spans: Vec<Span, A>,
    /// The innermost link that is open, or one for the text.
    inner: Parts,
    /// Those around it, the innermost last.
    outer: Vec<Parts, A>,
}

impl<A: Allocator> Scan<A> {
    /// No event was read.
    fn new(alloc: A) -> Result<Scan<A>, AllocError>
    where
        A: Clone,
        ensures { IfOk result (λ scan. scan_view scan ≡ nothing) }
    {
        Ok(Scan {
            spans: Vec::new(alloc.clone()?),
            inner: Parts::new(START),
            outer: Vec::new(alloc),
        })
    }

    /// Reads the event at an index, before those that were read.
    fn read(&mut self, event: &Event, index: usize) -> Result<(), AllocError>
        ensures { OnOk result (scan_view self.new ≡ scan_next event.now index (scan_view self.old)) }
    {
        match (event.kind, kind_of(event.name)) {
            (Kind::Exit, Some(_)) => self.exit(event.point()),
            (Kind::Exit, None) => Ok(()),
            (Kind::Enter, Some(kind)) => self.enter(kind, index, event.point()),
            (Kind::Enter, None) => {
                self.inner = self.inner.noted(event.name, index);
                Ok(())
            }
        }
    }

    /// Reads the exit of a link.
    fn exit(&mut self, end: Point) -> Result<(), AllocError>
        ensures { OnOk result (scan_view self.new ≡ exited end (scan_view self.old)) }
    {
        self.outer.push(self.inner)?;
        self.inner = Parts::new(end);
        Ok(())
    }

    /// Reads the enter of the innermost link.
    fn enter(&mut self, kind: LinkKind, index: usize, start: Point) -> Result<(), AllocError>
        ensures { OnOk result (scan_view self.new ≡ entered kind index start (scan_view self.old)) }
    {
        self.spans.push(span_of(kind, index, start, self.inner))?;
        self.inner = match self.outer.pop() {
            Some(outer) => outer,
            None => Parts::new(START),
        };
        Ok(())
    }
}

/// Finds the links among events, in the order of their enters.
pub(crate) fn spans<A: Allocator + Clone>(
    alloc: A,
    events: &[Event],
) -> Result<Vec<Span, A>, AllocError>
    ensures { IfOk result (λ spans. spans.items ≡ spans_of events.now) }
{
    let mut scan = Scan::new(alloc)?;
    let mut end = events.len();
    while end > 0 {
        end -= 1;
        scan.read(&events[end], end)?;
    }
    let mut spans = scan.spans;
    spans.reverse();
    Ok(spans)
}
