//! unused-definition (MD053): a definition of a link or a footnote that nothing refers to.
//!
//! It prints nothing: most often it was left behind, or its label is misspelled. Of definitions with the
//! same label only the first counts (CommonMark 4.7), so a later one is reported, too.
//!
//! Example: `[a]: b` in a text without `[a]`.
use crate::definitions::{Defined, Definitions, Use};
use engine_events::event::{Kind, Name};
use lint_document::document::Step;
use lint_document::{Document, Report, Rule};
use std::alloc::{AllocError, Global};

/// Reads links, images and calls, and marks their definitions as used.
#[derive(Drop)]
pub(crate) struct Uses {
    /// The labels of the links, images and calls that are open, as numbers of events. None with a resource.
    open: Vec<Option<usize>>,
}

impl Uses {
    /// No event was read.
    pub(crate) fn new(alloc: Global) -> Uses {
        Uses {
            open: Vec::new(alloc),
        }
    }

    /// Reads the next event, before which there are so many.
    pub(crate) fn read(
        &mut self,
        document: &Document<'_>,
        number: usize,
        step: &Step<'_>,
        defined: &mut Defined,
    ) -> Result<(), AllocError> {
        match (step.kind, step.name) {
            (Kind::Enter, Name::LabelText) => self.open.push(Some(number))?,
            (Kind::Enter, Name::ReferenceString) => set_last(&mut self.open, Some(number)),
            (Kind::Enter, Name::Resource) => set_last(&mut self.open, None),
            (Kind::Exit, Name::Link | Name::Image) => {
                if let Some(Some(label)) = self.open.pop() {
                    return defined.mark_link(document, label);
                }
            }
            (Kind::Exit, Name::GfmFootnoteCall) => {
                if let Some(Some(label)) = self.open.pop() {
                    return defined.mark_footnote(document, label);
                }
            }
            _ => {}
        }
        Ok(())
    }
}

/// Sets the last label.
fn set_last(labels: &mut [Option<usize>], label: Option<usize>) {
    if let Some(last) = labels.last_mut() {
        *last = label;
    }
}

/// Reports the definitions that aren't used.
pub(crate) fn check(defined: &Defined, report: &mut Report) -> Result<(), AllocError> {
    let links = ["nothing refers to", "defined before:"];
    check_list(&defined.links, links, report)?;
    let footnotes = ["nothing refers to footnote", "defined before: footnote"];
    check_list(&defined.footnotes, footnotes, report)
}

/// Reports the definitions of a list that aren't used. Of the words the second are for labels that an earlier
/// definition has.
fn check_list(
    definitions: &Definitions,
    words: [&str; 2],
    report: &mut Report,
) -> Result<(), AllocError> {
    let [unused, repeated] = words;
    for definition in &definitions.list {
        let words = match definition.state {
            Use::Used => continue,
            Use::Unused => unused,
            Use::Repeated => repeated,
        };
        let label = definition.label.as_str();
        report.add_named(Rule::UnusedDefinition, definition.span, words, label)?;
    }
    Ok(())
}
