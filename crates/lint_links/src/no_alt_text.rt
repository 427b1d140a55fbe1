//! no-alt-text (MD045): an image without a description.
//!
//! Who can't see the image learns nothing of it, not even that it is there.
//!
//! Example: `![](a.png)`, also with spaces between the brackets.
use engine_events::event::{Kind, Name};
use lint_document::document::{Depth, Step, is_blank};
use lint_document::{Report, Rule, Span};
use std::alloc::{AllocError, Global};

/// An image that is open.
#[derive(Clone, Copy)]
struct Image {
    /// Where its `![` is.
    span: Span,
    /// Whether there is text in its description so far.
    is_described: bool,
}

impl Image {
    fn starting(start: usize) -> Image {
        Image {
            span: Span {
                start,
                end: start.saturating_add(2),
            },
            is_described: false,
        }
    }
}

/// Reads the descriptions of images.
#[derive(Drop)]
pub(crate) struct NoAltText {
    /// The images that are open, the innermost last.
    images: Vec<Image>,
    /// The resources and references that are open.
    targets: Depth,
}

impl NoAltText {
    /// No event was read.
    pub(crate) fn new(alloc: Global) -> NoAltText {
        NoAltText {
            images: Vec::new(alloc),
            targets: Depth::default(),
        }
    }

    /// Reads the next event. Reports the image that ends there, if it has no description.
    pub(crate) fn read(&mut self, step: &Step<'_>, report: &mut Report) -> Result<(), AllocError> {
        if matches!(step.name, Name::Resource | Name::Reference) {
            self.targets.count(step.kind);
        }
        match (step.kind, step.name) {
            (Kind::Enter, Name::Image) => self.images.push(Image::starting(step.index))?,
            (Kind::Exit, Name::Image) => return leave(&mut self.images, report),
            _ if !self.targets.is_inside() && is_text(step) => describe(&mut self.images),
            _ => {}
        }
        Ok(())
    }
}

/// Reports the innermost image if it isn't described. If it is, so is the image around it.
fn leave(images: &mut Vec<Image>, report: &mut Report) -> Result<(), AllocError> {
    match images.pop() {
        Some(image) if !image.is_described => {
            report.add(Rule::NoAltText, image.span, "image without a description")
        }
        _ => {
            describe(images);
            Ok(())
        }
    }
}

/// Notes text in the description of the innermost image.
fn describe(images: &mut [Image]) {
    if let Some(image) = images.last_mut() {
        image.is_described = true;
    }
}

/// Whether text that a description keeps ends here.
fn is_text(step: &Step<'_>) -> bool {
    step.kind == Kind::Exit
        && match step.name {
            Name::Data => !is_blank(step.bytes),
            Name::CharacterEscapeValue
            | Name::CharacterReferenceValue
            | Name::CodeTextData
            | Name::MathTextData
            | Name::AutolinkEmail
            | Name::AutolinkProtocol
            | Name::GfmAutolinkLiteralEmail
            | Name::GfmAutolinkLiteralMailto
            | Name::GfmAutolinkLiteralProtocol
            | Name::GfmAutolinkLiteralWww
            | Name::GfmAutolinkLiteralXmpp => true,
            _ => false,
        }
}
