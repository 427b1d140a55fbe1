//! Which rules there are, and what they find.
ghost use Rattle.std.specs.Prelude.{◌≡◌};

use crate::silence::without_silenced;
use crate::walk::check;
use lint_document::{Document, Finding, Report, RuleSet};
use lint_links::Folder;
use lint_lists::list_numbers;
use lint_raw::comments_of;
use std::alloc::{AllocError, Global};

/// What is to be found.
#[derive(Clone, Copy)]
pub struct Settings {
    /// The rules that are on.
    pub rules: RuleSet,
    /// Whether headings of different sections may have the same text.
    pub siblings: bool,
    /// The most characters that a line may have, for `line-length`.
    pub line_length: usize,
    /// The columns that lists of bullets are indented by for each level, for `nested-list-indent`.
    pub level_indent: usize,
}

impl Settings {
    /// These rules, with the values that they have if none is asked for.
    pub fn new(rules: RuleSet) -> Settings
        ensures rules { result.rules ≡ rules }
    {
        Settings {
            rules,
            siblings: false,
            line_length: 80,
            level_indent: 2,
        }
    }
}

/// What the rules find in a document, which is in a folder, by where it is; at one place in the order of
/// the rules.
pub fn findings_of<F: Folder>(
    alloc: Global,
    document: &Document<'_>,
    settings: &Settings,
    folder: &mut F,
) -> Result<Vec<Finding>, AllocError> {
    let mut report = Report::new(alloc, settings.rules);
    let comments = check(alloc, document, settings, folder, &mut report)?;
    without_silenced(alloc, report.into_findings()?, &comments)
}

/// The numbers of items that `list-numbers` would find, one after the other, if each was mended; but for those
/// where comments turn that rule off. The words of a finding are the number that the item should have.
pub fn right_numbers(alloc: Global, document: &Document<'_>) -> Result<Vec<Finding>, AllocError> {
    let mut report = Report::new(alloc, RuleSet::ALL);
    list_numbers::renumber(document, &mut report)?;
    without_silenced(
        alloc,
        report.into_findings()?,
        &comments_of(alloc, document)?,
    )
}
