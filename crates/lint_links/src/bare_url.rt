//! bare-url (MD034): a URL in text that is no link.
//!
//! Without GFM a bare URL can't be clicked; with GFM it is a link only where the rules for literals find its
//! end. `<http://a.b>` and `[text](http://a.b)` are links everywhere.
//!
//! It finds `http://` and `https://` in text outside of links, autolinks, code and definitions. With `--gfm`
//! it also finds literals of any kind (GFM 6.9). A URL after a bracket that is open, as in `[http://a.b]`, is
//! no literal.
//!
//! Example: `see http://a.b`.
use engine_events::event::{Kind, Name};
use lint_document::document::{Depth, Step, is_white};
use lint_document::{Report, Rule, Span};
use std::alloc::AllocError;

/// Reads the texts outside of links.
#[derive(Clone, Copy, Default)]
pub(crate) struct BareUrl {
    /// What is open that may hold URLs.
    linked: Depth,
}

impl BareUrl {
    /// Reads the next event. Reports the bare URLs in the void event that ends there.
    pub(crate) fn read(&mut self, step: &Step<'_>, report: &mut Report) -> Result<(), AllocError> {
        if may_hold_url(step.name) {
            self.linked.count(step.kind);
        }
        if step.kind == Kind::Enter || self.linked.is_inside() {
            Ok(())
        } else {
            check_void(step, report)
        }
    }
}

/// Whether a URL may be in an event of this name.
fn may_hold_url(name: Name) -> bool {
    matches!(
        name,
        Name::Link
            | Name::Resource
            | Name::Reference
            | Name::Definition
            | Name::CodeFencedFence
            | Name::MathFlowFence
    )
}

/// Reports the bare URLs of the void event that ends here.
fn check_void(step: &Step<'_>, report: &mut Report) -> Result<(), AllocError> {
    match step.name {
        Name::Data => check_data(step, report),
        Name::GfmAutolinkLiteralProtocol | Name::GfmAutolinkLiteralWww => {
            report.add(Rule::BareUrl, step.span(), "bare URL")
        }
        Name::GfmAutolinkLiteralEmail
        | Name::GfmAutolinkLiteralMailto
        | Name::GfmAutolinkLiteralXmpp => report.add(Rule::BareUrl, step.span(), "bare address"),
        _ => Ok(()),
    }
}

/// Reports each URL in data, up to white space.
fn check_data(step: &Step<'_>, report: &mut Report) -> Result<(), AllocError> {
    let mut url: Option<usize> = None;
    for (offset, byte) in step.bytes.iter().enumerate() {
        let index = step.start.saturating_add(offset);
        if is_white(*byte) {
            report_url(url.take(), index, report)?;
        } else if *byte == b'h' && url.is_none() && starts_url(&step.bytes[offset..]) {
            url = Some(index);
        }
    }
    report_url(url, step.index, report)
}

/// Reports the URL that ends at an index, if one starts.
fn report_url(start: Option<usize>, end: usize, report: &mut Report) -> Result<(), AllocError> {
    match start {
        Some(start) => report.add(Rule::BareUrl, Span { start, end }, "bare URL"),
        None => Ok(()),
    }
}

/// Whether bytes start with a protocol, and a byte of a URL after it.
fn starts_url(bytes: &[u8]) -> bool {
    match after_protocol(bytes) {
        Some([first, ..]) => !is_white(*first),
        _ => false,
    }
}

/// What follows the protocol that bytes start with.
fn after_protocol(bytes: &[u8]) -> Option<&[u8]> {
    match bytes.strip_prefix(b"http://") {
        Some(after) => Some(after),
        None => bytes.strip_prefix(b"https://"),
    }
}
