//! All rules on references and definitions.
use crate::definitions::Defined;
use crate::undefined_reference::Texts;
use crate::unused_definition::{self, Uses};
use engine_events::event::Name;
use lint_document::document::Step;
use lint_document::{Document, Report};
use std::alloc::{AllocError, Global};

/// The rules on references and definitions, with what they know of the text so far.
#[derive(Drop)]
pub struct ReferenceRules {
    defined: Defined,
    texts: Texts,
    uses: Uses,
}

impl ReferenceRules {
    /// The definitions of the whole text were read, and no other event.
    pub fn new(alloc: Global, document: &Document<'_>) -> Result<ReferenceRules, AllocError> {
        Ok(ReferenceRules {
            defined: Defined::of(alloc, document)?,
            texts: Texts::new(alloc, document.gfm),
            uses: Uses::new(alloc),
        })
    }

    /// Whether the rules ask for the next event, if it has this name.
    pub fn asks_for(&self, name: Name) -> bool {
        self.texts.is_after_bracket() || is_asked_for(name)
    }

    /// Reads the next event that the rules ask for, before which there are so many.
    pub fn read(
        &mut self,
        document: &Document<'_>,
        number: usize,
        step: &Step<'_>,
        report: &mut Report,
    ) -> Result<(), AllocError> {
        self.texts.read(step, &self.defined, report)?;
        if self.defined.is_empty() {
            return Ok(());
        }
        self.uses.read(document, number, step, &mut self.defined)
    }

    /// Reads the end of the text.
    pub fn finish(&self, report: &mut Report) -> Result<(), AllocError> {
        unused_definition::check(&self.defined, report)
    }
}

/// Whether a rule asks for events of this name, beside those in brackets and right after them.
fn is_asked_for(name: Name) -> bool {
    matches!(
        name,
        Name::BlockQuotePrefix
            | Name::CodeFencedFence
            | Name::Data
            | Name::Definition
            | Name::GfmFootnoteCall
            | Name::GfmFootnoteDefinitionLabel
            | Name::GfmTableCellText
            | Name::HeadingAtxText
            | Name::HeadingSetextText
            | Name::Image
            | Name::LabelText
            | Name::Link
            | Name::MathFlowFence
            | Name::Paragraph
            | Name::Reference
            | Name::ReferenceString
            | Name::Resource
    )
}
