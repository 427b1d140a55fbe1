//! What is found in a text.
use lint_document::{Document, Finding, RuleSet};
use std::alloc::AllocError;

/// What finds what is to be mended.
pub trait Finder {
    /// What these rules find in a document. Of `list-numbers` these are all items whose number is to be
    /// changed, and the words of a finding are the right number.
    fn findings(
        &self,
        document: &Document<'_>,
        rules: &RuleSet,
    ) -> Result<Vec<Finding>, AllocError>;
}
