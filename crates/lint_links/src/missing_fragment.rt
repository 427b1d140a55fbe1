//! missing-fragment (MD051): a link to a fragment that no heading and no tag has.
//!
//! Such a link leads to the top of the page. The fragment of a heading is GitHub's: its text in small
//! letters, with a hyphen for each space, without punctuation, and with `-1`, `-2`, .. if it is taken.
//! `#top` leads to the top, and what begins with `user-content-` isn't looked at. In links to other files
//! fragments of lines aren't looked at either, such as `#L10`.
//!
//! Example: `[a](#Usage)` in a text whose only heading is `# Usage`: the fragment is `usage`.
use crate::fragments::Fragments;
use crate::missing_file::{Folder, path_of};
use crate::target::unescaped;
use lint_document::{Document, Report, Rule, Span};
use std::alloc::{AllocError, Global};
use std::str::from_utf8;

/// A link to a fragment of the same text.
#[derive(Drop)]
struct FragmentLink {
    span: Span,
    /// What follows the `#`.
    fragment: String,
}

/// The links of a text to its own fragments.
#[derive(Drop)]
pub(crate) struct MissingFragment {
    links: Vec<FragmentLink>,
}

impl MissingFragment {
    /// No link was read.
    pub(crate) fn new(alloc: Global) -> MissingFragment {
        MissingFragment {
            links: Vec::new(alloc),
        }
    }

    /// Reads a URL, which is at this place of a text in a folder. Reports it if it leads to a fragment that
    /// another file doesn't have.
    pub(crate) fn read<F: Folder>(
        &mut self,
        folder: &mut F,
        span: Span,
        url: &str,
        report: &mut Report,
    ) -> Result<(), AllocError> {
        if !report.has(Rule::MissingFragment) {
            return Ok(());
        }
        match (path_of(url), url.split_once('#')) {
            (None, Some(("", fragment))) => {
                let fragment = String::from_str(report.alloc(), fragment)?;
                self.links.push(FragmentLink { span, fragment })?;
                Ok(())
            }
            (Some(path), Some((_, fragment))) if !is_of_lines(fragment) => {
                check_elsewhere(folder, span, path, fragment, report)
            }
            _ => Ok(()),
        }
    }

    /// Reports the links to fragments that aren't in the text.
    pub(crate) fn finish(
        &self,
        document: &Document<'_>,
        report: &mut Report,
    ) -> Result<(), AllocError> {
        if self.links.is_empty() {
            return Ok(());
        }
        let fragments = Fragments::of(report.alloc(), document)?;
        self.check(&fragments, report)
    }

    /// Reports the links to other fragments than these.
    fn check(&self, fragments: &Fragments, report: &mut Report) -> Result<(), AllocError> {
        for link in &self.links {
            let fragment = link.fragment.as_str();
            if !is_there(report.alloc(), fragments, fragment)? {
                let words = "nothing has the fragment";
                report.add_named(Rule::MissingFragment, link.span, words, fragment)?;
            }
        }
        Ok(())
    }
}

/// Reports a link, which is at this place, if it leads to a fragment that the file at a path doesn't have. In
/// both bytes may be escaped.
fn check_elsewhere<F: Folder>(
    folder: &mut F,
    span: Span,
    path: &str,
    fragment: &str,
    report: &mut Report,
) -> Result<(), AllocError> {
    let path = unescaped(report.alloc(), path)?;
    let bytes = unescaped(report.alloc(), fragment)?;
    let (Ok(path), Ok(fragment)) = (from_utf8(&path), from_utf8(&bytes)) else {
        return Ok(());
    };
    if leads_anywhere(fragment) || folder.has_fragment(path, fragment)? {
        return Ok(());
    }
    let what = format!(in report.alloc(); "nothing in {path:?} has the fragment {fragment:?}")?;
    report.add_made(Rule::MissingFragment, span, what)
}

/// Whether a fragment stands for lines of a file, as `L10` or `L10-L20`.
fn is_of_lines(fragment: &str) -> bool {
    matches!(fragment.as_bytes(), [b'L', b'0'..=b'9', ..])
}

/// Whether a link to a fragment isn't looked at.
fn leads_anywhere(fragment: &str) -> bool {
    fragment.is_empty() || fragment.starts_with("user-content-")
}

/// Whether a link to a fragment leads somewhere.
fn is_there(alloc: Global, fragments: &Fragments, fragment: &str) -> Result<bool, AllocError> {
    if leads_anywhere(fragment) {
        return Ok(true);
    }
    let bytes = unescaped(alloc, fragment)?;
    Ok(match from_utf8(&bytes) {
        Ok(fragment) => fragments.has(fragment),
        Err(_) => false,
    })
}
