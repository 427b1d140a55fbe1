//! missing-file: a link to a file that isn't there.
//!
//! Files are moved, and links to them stay behind. Only links to files beside the text are looked at: not
//! those with a protocol, those that begin with `/`, and those without a path.
//!
//! Example: `[a](b.md)` in a folder without `b.md`.
use crate::target::unescaped;
use lint_document::{Report, Rule, Span};
use std::alloc::{AllocError, Global};
use std::str::from_utf8;

/// The folder that a text is in.
pub trait Folder {
    /// Whether there is a file or a folder at a path from here. It may say so if it can't know.
    fn has(&self, path: &str) -> Result<bool, AllocError>;

    /// Whether the text of the file at a path from here has a fragment. It may say so if it can't know.
    fn has_fragment(&mut self, path: &str, fragment: &str) -> Result<bool, AllocError>;
}

/// Reports a URL, which is at this place, if it leads to a file that isn't in the folder.
pub(crate) fn check<F: Folder>(
    folder: &F,
    span: Span,
    url: &str,
    report: &mut Report,
) -> Result<(), AllocError> {
    if !report.has(Rule::MissingFile) {
        return Ok(());
    }
    let Some(path) = path_of(url) else {
        return Ok(());
    };
    if is_there(report.alloc(), folder, path)? {
        return Ok(());
    }
    report.add_named(Rule::MissingFile, span, "no file", path)
}

/// The path of a URL that leads to a file beside the text (RFC 3986, 4.2).
pub(crate) fn path_of(url: &str) -> Option<&str> {
    let end = url.find(['?', '#']).unwrap_or(url.len());
    let path = url.get(..end)?;
    let is_elsewhere = path.is_empty() || path.starts_with('/') || has_protocol(path);
    if is_elsewhere { None } else { Some(path) }
}

/// Whether a URL begins with a protocol, such as `mailto:`.
fn has_protocol(url: &str) -> bool {
    match url.split_once(':') {
        Some((protocol, _)) => !protocol.contains('/'),
        None => false,
    }
}

/// Whether there is a file at a path, in which bytes may be escaped.
fn is_there<F: Folder>(alloc: Global, folder: &F, path: &str) -> Result<bool, AllocError> {
    let bytes = unescaped(alloc, path)?;
    match from_utf8(&bytes) {
        Ok(path) => folder.has(path),
        Err(_) => Ok(false),
    }
}
