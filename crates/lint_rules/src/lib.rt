//! What the rules of the linter find in a text: all rules that are on, and the comments that turn rules
//! off.
#![tactic(auto)]

pub mod rules;
mod silence;
mod walk;

pub use lint_document::{Columns, Document, Finding, Place, Places, Rule, RuleSet, Span};
pub use lint_links::{Folder, Fragments};
pub use rules::{Settings, findings_of, right_numbers};
