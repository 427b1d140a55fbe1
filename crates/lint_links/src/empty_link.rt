//! empty-link (MD042): a link that leads nowhere.
//!
//! Most often its destination was to be filled in later.
//!
//! Example: `[a]()`, `[a](<>)` or `[a](#)`.
use engine_events::event::{Kind, Name};
use lint_document::document::Step;
use lint_document::{Document, Report, Rule, Span};
use std::alloc::AllocError;

/// Reads the resources of links.
#[derive(Clone, Copy)]
pub(crate) struct EmptyLink {
    /// Where the last resource starts.
    start: usize,
    /// Its destination.
    destination: Span,
    /// The resource that ends right before this event, if it leads nowhere.
    ended: Option<Span>,
}

/// No destination.
const NONE: Span = Span { start: 0, end: 0 };

impl EmptyLink {
    /// No event was read.
    pub(crate) fn new() -> EmptyLink {
        EmptyLink {
            start: 0,
            destination: NONE,
            ended: None,
        }
    }

    /// Reads the next event. Reports the link that ends there, if its destination is empty, or `#`.
    pub(crate) fn read(
        &mut self,
        document: &Document<'_>,
        step: &Step<'_>,
        report: &mut Report,
    ) -> Result<(), AllocError> {
        let ended = self.ended.take();
        match (step.kind, step.name) {
            // What ends with a resource is a link or an image.
            (Kind::Exit, Name::Link) => report_link(ended, report),
            _ => {
                self.read_resource(document, step);
                Ok(())
            }
        }
    }

    /// Reads an event of a resource.
    fn read_resource(&mut self, document: &Document<'_>, step: &Step<'_>) {
        let index = step.index;
        match (step.kind, step.name) {
            (Kind::Enter, Name::Resource) => {
                self.start = index;
                self.destination = NONE;
            }
            (Kind::Enter, Name::ResourceDestinationString) => self.destination.start = index,
            (Kind::Exit, Name::ResourceDestinationString) => self.destination.end = index,
            (Kind::Exit, Name::Resource) if leads_nowhere(document, self.destination) => {
                let start = self.start;
                self.ended = Some(Span { start, end: index });
            }
            _ => {}
        }
    }
}

fn leads_nowhere(document: &Document<'_>, destination: Span) -> bool {
    matches!(document.bytes_of(destination), [] | [b'#'])
}

/// Reports a resource that leads nowhere, if there is one.
fn report_link(resource: Option<Span>, report: &mut Report) -> Result<(), AllocError> {
    match resource {
        Some(span) => report.add(Rule::EmptyLink, span, "link that leads nowhere"),
        None => Ok(()),
    }
}
