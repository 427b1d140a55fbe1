//! All rules on raw HTML and code.
use crate::code_language::CodeLanguage;
use crate::raw_html::RawHtml;
use crate::switch::{CommentReader, Comments};
use engine_events::event::Name;
use lint_document::document::Step;
use lint_document::{Document, Report};
use std::alloc::{AllocError, Global};

/// The rules on raw HTML and code, with what they know of the text so far.
#[derive(Drop)]
pub struct RawRules {
    html: RawHtml,
    language: CodeLanguage,
    comments: CommentReader,
}

impl RawRules {
    /// No event was read.
    pub fn new(alloc: Global) -> RawRules {
        RawRules {
            html: RawHtml::default(),
            language: CodeLanguage::default(),
            comments: CommentReader::new(alloc),
        }
    }

    /// Whether the rules ask for events of this name.
    pub fn asks_for(name: Name) -> bool {
        matches!(
            name,
            Name::BlankLineEnding
                | Name::ByteOrderMark
                | Name::CodeFenced
                | Name::CodeFencedFence
                | Name::CodeFencedFenceInfo
                | Name::CodeFencedFenceSequence
                | Name::HtmlFlow
                | Name::HtmlFlowData
                | Name::HtmlText
                | Name::HtmlTextData
                | Name::LineEnding
        )
    }

    /// Reads the next event that the rules ask for.
    pub fn read(
        &mut self,
        document: &Document<'_>,
        step: &Step<'_>,
        report: &mut Report,
    ) -> Result<(), AllocError> {
        self.comments.read(step)?;
        self.language.read(step, report)?;
        self.html.read(document, step, report)
    }

    /// The comments that turn rules off or on, after the last event was read. Fails if memory runs out.
    pub fn into_comments(self) -> Result<Comments, AllocError> {
        let RawRules { comments, .. } = self;
        comments.into_comments()
    }
}
