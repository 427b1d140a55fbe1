//! The rules, while they read the events of a text. All read them in one walk.
use crate::rules::Settings;
use engine_events::event::{Kind, Name};
use lint_blanks::BlankRules;
use lint_document::document::Step;
use lint_document::{Document, Report};
use lint_headings::HeadingRules;
use lint_links::{Folder, LinkRules};
use lint_lists::ListRules;
use lint_raw::{Comments, RawRules};
use lint_references::ReferenceRules;
use std::alloc::{AllocError, Global};

/// Reports what the rules find in a document, which is in a folder. Returns the comments that turn rules off
/// or on.
pub(crate) fn check<F: Folder>(
    alloc: Global,
    document: &Document<'_>,
    settings: &Settings,
    folder: &mut F,
    report: &mut Report,
) -> Result<Comments, AllocError> {
    let mut walk = Walk::new(alloc, document, settings)?;
    walk.read(document, folder, report)?;
    let Walk { raw, .. } = walk;
    raw.into_comments()
}

/// The rules, with what they know of the text so far.
#[derive(Drop)]
struct Walk {
    blanks: BlankRules,
    headings: HeadingRules,
    lists: ListRules,
    raw: RawRules,
    links: LinkRules,
    references: ReferenceRules,
}

impl Walk {
    /// No event was read.
    fn new(
        alloc: Global,
        document: &Document<'_>,
        settings: &Settings,
    ) -> Result<Walk, AllocError> {
        Ok(Walk {
            headings: HeadingRules::new(alloc, settings.siblings)?,
            references: ReferenceRules::new(alloc, document)?,
            blanks: BlankRules::new(document, settings.line_length),
            lists: ListRules::new(alloc, settings.level_indent),
            raw: RawRules::new(alloc),
            links: LinkRules::new(alloc),
        })
    }

    /// Reads all events.
    fn read<F: Folder>(
        &mut self,
        document: &Document<'_>,
        folder: &mut F,
        report: &mut Report,
    ) -> Result<(), AllocError> {
        let mut number: usize = 0;
        for step in document.steps() {
            self.step(document, number, &step, folder, report)?;
            number = number.saturating_add(1);
        }
        self.blanks.finish(document, report)?;
        self.links.finish(document, report)?;
        self.references.finish(report)
    }

    /// Reads the next event, before which there are so many. Rules read only those events that they ask for: most
    /// names concern few of them.
    fn step<F: Folder>(
        &mut self,
        document: &Document<'_>,
        number: usize,
        step: &Step<'_>,
        folder: &mut F,
        report: &mut Report,
    ) -> Result<(), AllocError> {
        let name = step.name;
        // Data are read where they end, with their bytes.
        if name == Name::Data && step.kind == Kind::Enter {
            return Ok(());
        }
        if self.blanks.asks_for(name) {
            self.blanks.read(document, step, report)?;
        }
        if self.headings.asks_for(name) {
            self.headings.read(document, number, step, report)?;
        }
        if self.lists.asks_for(name) {
            self.lists.read(step, report)?;
        }
        if RawRules::asks_for(name) {
            self.raw.read(document, step, report)?;
        }
        if is_asked_for_by_links(name) {
            self.links.read(document, step, folder, report)?;
        }
        if self.references.asks_for(name) {
            self.references.read(document, number, step, report)?;
        }
        Ok(())
    }
}

/// Whether a rule on links and images asks for events of this name.
fn is_asked_for_by_links(name: Name) -> bool {
    matches!(
        name,
        Name::AutolinkEmail
            | Name::AutolinkProtocol
            | Name::CharacterEscapeValue
            | Name::CharacterReference
            | Name::CharacterReferenceValue
            | Name::CodeFencedFence
            | Name::CodeTextData
            | Name::Data
            | Name::Definition
            | Name::DefinitionDestinationString
            | Name::GfmAutolinkLiteralEmail
            | Name::GfmAutolinkLiteralMailto
            | Name::GfmAutolinkLiteralProtocol
            | Name::GfmAutolinkLiteralWww
            | Name::GfmAutolinkLiteralXmpp
            | Name::Image
            | Name::Link
            | Name::MathFlowFence
            | Name::MathTextData
            | Name::Reference
            | Name::Resource
            | Name::ResourceDestinationString
    )
}
