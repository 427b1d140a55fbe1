//! What the rules of the linter read and report: a text with its events, its headings, findings, and
//! the names of the rules.
#![tactic(auto)]

pub mod document;
pub mod finding;
pub mod heading;
pub mod place;
pub mod report;
pub mod rule;
pub mod rule_set;
pub mod span;

pub use document::Document;
pub use finding::Finding;
pub use heading::{Heading, Headings};
pub use place::{Columns, Place, Places};
pub use report::Report;
pub use rule::Rule;
pub use rule_set::RuleSet;
pub use span::Span;
