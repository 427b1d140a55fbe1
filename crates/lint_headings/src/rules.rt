//! All rules on headings.
use crate::duplicate_heading::DuplicateHeading;
use crate::heading_increment::HeadingIncrement;
use crate::heading_punctuation;
use crate::heading_space::HeadingSpace;
use crate::second_title::SecondTitle;
use engine_events::event::{Kind, Name};
use lint_document::document::Step;
use lint_document::{Document, Heading, Headings, Report};
use std::alloc::{AllocError, Global};

/// The rules on headings, with what they know of the text so far.
#[derive(Drop)]
pub struct HeadingRules {
    headings: Headings,
    /// Whether a heading is open.
    is_inside: bool,
    increment: HeadingIncrement,
    title: SecondTitle,
    duplicate: DuplicateHeading,
    space: HeadingSpace,
}

impl HeadingRules {
    /// No event was read. If `siblings`, headings of different sections may have the same text.
    pub fn new(alloc: Global, siblings: bool) -> Result<HeadingRules, AllocError> {
        Ok(HeadingRules {
            headings: Headings::default(),
            is_inside: false,
            increment: HeadingIncrement::new(),
            title: SecondTitle::default(),
            duplicate: DuplicateHeading::new(alloc, siblings)?,
            space: HeadingSpace::default(),
        })
    }

    /// Whether the rules ask for the next event, if it has this name.
    pub fn asks_for(&self, name: Name) -> bool {
        self.is_inside || self.space.is_at_start() || is_asked_for(name)
    }

    /// Reads the next event that the rules ask for, before which there are so many.
    pub fn read(
        &mut self,
        document: &Document<'_>,
        number: usize,
        step: &Step<'_>,
        report: &mut Report,
    ) -> Result<(), AllocError> {
        self.space.read(document, step, report)?;
        if is_heading(step.name) {
            self.is_inside = step.kind == Kind::Enter;
        }
        match self.headings.read(step, number) {
            Some(heading) => self.check(document, &heading, report),
            None => Ok(()),
        }
    }

    /// Reports what is wrong with the next heading.
    fn check(
        &mut self,
        document: &Document<'_>,
        heading: &Heading,
        report: &mut Report,
    ) -> Result<(), AllocError> {
        self.increment.check(heading, report)?;
        self.duplicate.check(document, heading, report)?;
        self.title.check(heading, report)?;
        heading_punctuation::check(document, heading, report)
    }
}

/// Whether a rule asks for events of this name, beside those in headings and at the starts of lines.
fn is_asked_for(name: Name) -> bool {
    is_heading(name)
        || matches!(
            name,
            Name::LineEnding | Name::BlankLineEnding | Name::ByteOrderMark
        )
}

fn is_heading(name: Name) -> bool {
    matches!(name, Name::HeadingAtx | Name::HeadingSetext)
}
