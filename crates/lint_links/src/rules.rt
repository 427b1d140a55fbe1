//! All rules on links and images.
use crate::bare_url::BareUrl;
use crate::empty_link::EmptyLink;
use crate::missing_file::{self, Folder};
use crate::missing_fragment::MissingFragment;
use crate::no_alt_text::NoAltText;
use crate::reversed_link;
use crate::target::Targets;
use lint_document::document::Step;
use lint_document::{Document, Report, Span};
use std::alloc::{AllocError, Global};

/// The rules on links and images, with what they know of the text so far.
#[derive(Drop)]
pub struct LinkRules {
    url: BareUrl,
    empty: EmptyLink,
    images: NoAltText,
    targets: Targets,
    fragments: MissingFragment,
}

impl LinkRules {
    /// No event was read.
    pub fn new(alloc: Global) -> LinkRules {
        LinkRules {
            url: BareUrl::default(),
            empty: EmptyLink::new(),
            images: NoAltText::new(alloc),
            targets: Targets::new(alloc),
            fragments: MissingFragment::new(alloc),
        }
    }

    /// Reads the next event of a document, which is in a folder.
    pub fn read<F: Folder>(
        &mut self,
        document: &Document<'_>,
        step: &Step<'_>,
        folder: &mut F,
        report: &mut Report,
    ) -> Result<(), AllocError> {
        self.url.read(step, report)?;
        self.empty.read(document, step, report)?;
        reversed_link::check(document, step, report)?;
        self.images.read(step, report)?;
        match self.targets.read(document, step)? {
            Some(span) => self.check_target(span, folder, report),
            None => Ok(()),
        }
    }

    /// Reports the last destination, which is at this place, if it leads to no file, or to no fragment of
    /// another file.
    fn check_target<F: Folder>(
        &mut self,
        span: Span,
        folder: &mut F,
        report: &mut Report,
    ) -> Result<(), AllocError> {
        let url = self.targets.url();
        missing_file::check(folder, span, url, report)?;
        self.fragments.read(folder, span, url, report)
    }

    /// Reads the end of the text.
    pub fn finish(&self, document: &Document<'_>, report: &mut Report) -> Result<(), AllocError> {
        self.fragments.finish(document, report)
    }
}
