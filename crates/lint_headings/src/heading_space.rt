//! heading-space (MD018): a line of a paragraph that begins with `#` signs and no space after them.
//!
//! It was to be a heading, and is text (CommonMark 4.2): its signs are on the page. A number after the signs
//! isn't found, since `#12` is an issue, nor are lines that begin with the marker of an item.
//!
//! Example: `#Usage`.
use engine_events::event::{Kind, Name};
use lint_document::document::{Step, is_white};
use lint_document::{Document, Report, Rule, Span};
use std::alloc::AllocError;

/// Reads the starts of lines.
#[derive(Clone, Copy, Default)]
pub(crate) struct HeadingSpace {
    /// Whether this line has more so far than white space and the `>` of quotes.
    is_past_start: bool,
}

impl HeadingSpace {
    /// Whether this line has nothing so far but white space and the `>` of quotes, so that each event is asked
    /// for.
    pub(crate) fn is_at_start(&self) -> bool {
        !self.is_past_start
    }

    /// Reads the next event. Reports the data that end there, if they begin a line with the signs of a
    /// heading that is none.
    pub(crate) fn read(
        &mut self,
        document: &Document<'_>,
        step: &Step<'_>,
        report: &mut Report,
    ) -> Result<(), AllocError> {
        let is_past_start = self.is_past_start;
        self.is_past_start = !step.starts_line() && (is_past_start || is_past(step));
        if is_past_start || step.name != Name::Data || step.kind == Kind::Enter {
            return Ok(());
        }
        match signs_at(document, step.start) {
            Some(signs) => report.add(
                Rule::HeadingSpace,
                signs,
                "no space after the # of a heading",
            ),
            None => Ok(()),
        }
    }
}

/// Whether more than white space and the `>` of quotes comes before what follows an event.
fn is_past(step: &Step<'_>) -> bool {
    match step.name {
        Name::BlockQuote
        | Name::BlockQuotePrefix
        | Name::BlockQuoteMarker
        | Name::Content
        | Name::Paragraph
        | Name::SpaceOrTab => false,
        Name::Data => step.kind == Kind::Exit,
        _ => true,
    }
}

/// The signs of a heading that start at an index, if there is no space after them.
fn signs_at(document: &Document<'_>, start: usize) -> Option<Span> {
    let bytes = document.bytes.get(start..)?;
    let size = bytes.iter().take_while(|byte| **byte == b'#').count();
    let after = *bytes.get(size)?;
    if size == 0 || size > RANK_MAX || is_white(after) || after.is_ascii_digit() {
        return None;
    }
    Some(Span {
        start,
        end: start.saturating_add(size),
    })
}

/// The most signs that a heading may have.
const RANK_MAX: usize = 6;
