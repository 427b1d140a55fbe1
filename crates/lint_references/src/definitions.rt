//! The definitions of a text (CommonMark 4.7), with those of footnotes.
use crate::label::normal_label;
use engine_events::event::{Event, Kind, Name};
use event_references::label::push_text_at;
use inline_labels::LabelTable;
use lint_document::{Document, Span};
use std::alloc::{AllocError, Global};

/// What is known of a definition.
#[derive(Clone, Copy)]
pub(crate) enum Use {
    /// Nothing refers to it, as far as the text was read.
    Unused,
    /// Something refers to it.
    Used,
    /// An earlier definition has its label.
    Repeated,
}

/// A definition.
#[derive(Drop)]
pub(crate) struct Definition {
    /// Where it is, up to the end of its label.
    pub(crate) span: Span,
    /// Its label, in the form in which labels match.
    pub(crate) label: String,
    pub(crate) state: Use,
}

/// The definitions of links, or those of footnotes.
#[derive(Drop)]
pub(crate) struct Definitions {
    labels: LabelTable<Global>,
    /// In the order of the text.
    pub(crate) list: Vec<Definition>,
    alloc: Global,
}

impl Definitions {
    fn new(alloc: Global) -> Result<Definitions, AllocError> {
        Ok(Definitions {
            labels: LabelTable::new(alloc)?,
            list: Vec::new(alloc),
            alloc,
        })
    }

    /// Adds the next definition of the text.
    fn add(&mut self, span: Span, label: &[u8]) -> Result<(), AllocError> {
        let is_first = self.labels.insert(label, self.list.len())?;
        let state = if is_first { Use::Unused } else { Use::Repeated };
        let label = normal_label(self.alloc, label)?;
        self.list.push(Definition { span, label, state })?;
        Ok(())
    }

    /// Notes where the label of the last definition ends, before its bracket.
    fn end_label(&mut self, index: usize) {
        if let Some(definition) = self.list.last_mut() {
            definition.span.end = index.saturating_add(1);
        }
    }

    /// Whether there are none.
    fn is_empty(&self) -> bool {
        self.list.is_empty()
    }

    /// Whether one has this label.
    pub(crate) fn has(&self, label: &[u8]) -> Result<bool, AllocError> {
        Ok(self.labels.find(label)?.is_some())
    }

    /// Marks the definition that a label leads to as used.
    fn mark_used(&mut self, label: &[u8]) -> Result<(), AllocError> {
        let Some(index) = self.labels.find(label)? else {
            return Ok(());
        };
        if let Some(definition) = self.list.get_mut(index) {
            definition.state = Use::Used;
        }
        Ok(())
    }
}

/// The definitions of a text.
#[derive(Drop)]
pub(crate) struct Defined {
    pub(crate) links: Definitions,
    pub(crate) footnotes: Definitions,
    /// The label that was read last.
    label: Vec<u8>,
}

impl Defined {
    /// The definitions of a text, of which none is used so far.
    pub(crate) fn of(alloc: Global, document: &Document<'_>) -> Result<Defined, AllocError> {
        let mut defined = Defined {
            links: Definitions::new(alloc)?,
            footnotes: Definitions::new(alloc)?,
            label: Vec::new(alloc),
        };
        defined.read(document)?;
        Ok(defined)
    }

    /// Whether there are none.
    pub(crate) fn is_empty(&self) -> bool {
        self.links.is_empty() && self.footnotes.is_empty()
    }

    /// Adds the definitions of a text.
    fn read(&mut self, document: &Document<'_>) -> Result<(), AllocError> {
        let mut start = 0;
        for (number, event) in document.events.iter().enumerate() {
            match event.name {
                Name::Definition | Name::GfmFootnoteDefinition if event.kind == Kind::Enter => {
                    start = event.point().index;
                }
                Name::DefinitionLabelString | Name::GfmFootnoteDefinitionLabelString => {
                    self.read_label(document, start, number, event)?;
                }
                _ => {}
            }
        }
        Ok(())
    }

    /// Reads the enter or the exit of the label of a definition, which starts at an index.
    fn read_label(
        &mut self,
        document: &Document<'_>,
        start: usize,
        number: usize,
        event: &Event,
    ) -> Result<(), AllocError> {
        let is_link = event.name == Name::DefinitionLabelString;
        if event.kind == Kind::Exit {
            let end = event.point().index;
            if is_link {
                self.links.end_label(end);
            } else {
                self.footnotes.end_label(end);
            }
            return Ok(());
        }
        self.read_text(document, number)?;
        let span = Span { start, end: start };
        if is_link {
            self.links.add(span, &self.label)
        } else {
            self.footnotes.add(span, &self.label)
        }
    }

    /// Reads the text of the event of this number.
    fn read_text(&mut self, document: &Document<'_>, number: usize) -> Result<(), AllocError> {
        self.label.clear();
        push_text_at(&mut self.label, document.bytes, document.events, number)
    }

    /// Marks the definition of a link or an image as used, whose label is the event of this number.
    pub(crate) fn mark_link(
        &mut self,
        document: &Document<'_>,
        number: usize,
    ) -> Result<(), AllocError> {
        self.read_text(document, number)?;
        self.links.mark_used(&self.label)
    }

    /// Marks the definition of a footnote as used, whose label is the event of this number.
    pub(crate) fn mark_footnote(
        &mut self,
        document: &Document<'_>,
        number: usize,
    ) -> Result<(), AllocError> {
        self.read_text(document, number)?;
        self.footnotes.mark_used(&self.label)
    }
}
