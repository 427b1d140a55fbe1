//! Mends what the rules of the linter find in a text, where the document stays the same.
#![tactic(auto)]

mod entry;
mod rules;
mod source;

pub use entry::fix;
pub use lint_edits::Finder;
pub use markdown::SIZE_MAX;
pub use rules::Rules;
pub use source::fix_source;
