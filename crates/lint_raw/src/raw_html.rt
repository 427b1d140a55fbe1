//! raw-html (MD033): a tag of raw HTML.
//!
//! What Markdown prints is safe only without raw HTML, and other readers than browsers don't know it. End
//! tags and comments aren't looked at.
//!
//! Example: `a<br>b`.
use engine_events::event::{Kind, Name};
use lint_document::document::Step;
use lint_document::{Document, Report, Rule, Span};
use std::alloc::AllocError;
use std::str::from_utf8;

/// Reads raw HTML.
#[derive(Clone, Copy, Default)]
pub(crate) struct RawHtml {
    /// Whether the raw HTML that began last is no tag.
    is_other: bool,
}

impl RawHtml {
    /// Reads the next event. Reports the tags in the line of raw HTML that ends there.
    pub(crate) fn read(
        &mut self,
        document: &Document<'_>,
        step: &Step<'_>,
        report: &mut Report,
    ) -> Result<(), AllocError> {
        match (step.kind, step.name) {
            (Kind::Enter, Name::HtmlFlow | Name::HtmlText) => {
                self.is_other = starts_other(document, step.index);
                Ok(())
            }
            (Kind::Exit, Name::HtmlFlowData | Name::HtmlTextData) if !self.is_other => {
                check_line(step, report)
            }
            _ => Ok(()),
        }
    }
}

/// Whether what starts at an index is a comment, an instruction, a declaration or CDATA (CommonMark 6.6).
fn starts_other(document: &Document<'_>, start: usize) -> bool {
    let end = document.bytes.len();
    let html = document.bytes_of(Span { start, end });
    html.starts_with(b"<!") || html.starts_with(b"<?")
}

/// Reports the tags that start in a line of raw HTML.
fn check_line(step: &Step<'_>, report: &mut Report) -> Result<(), AllocError> {
    for (offset, byte) in step.bytes.iter().enumerate() {
        if *byte == b'<' {
            let start = step.start.saturating_add(offset);
            report_tag(start, tag_name(&step.bytes[offset..]), report)?;
        }
    }
    Ok(())
}

/// The name of the tag that bytes begin with, or an empty one (CommonMark 6.6).
fn tag_name(html: &[u8]) -> &[u8] {
    let Some(after) = html.strip_prefix(b"<") else {
        return &[];
    };
    let starts = after.first().is_some_and(|byte| byte.is_ascii_alphabetic());
    let size = after.iter().take_while(|byte| is_of_name(**byte)).count();
    match after.get(..size) {
        Some(name) if starts => name,
        _ => &[],
    }
}

fn is_of_name(byte: u8) -> bool {
    byte.is_ascii_alphanumeric() || byte == b'-'
}

/// Reports a tag that starts at an index, unless its name is empty.
fn report_tag(start: usize, name: &[u8], report: &mut Report) -> Result<(), AllocError> {
    if name.is_empty() || !report.has(Rule::RawHtml) {
        return Ok(());
    }
    let Ok(name) = from_utf8(name) else {
        return Ok(());
    };
    let span = Span {
        start,
        end: start.saturating_add(1).saturating_add(name.len()),
    };
    let what = format!(in report.alloc(); "raw HTML <{name}>")?;
    report.add_made(Rule::RawHtml, span, what)
}
