//! The rules of the formatter: what they change in a text, found in its events.
#![tactic(auto)]

mod ignored;
mod rule_set;
mod rules;
mod style;

pub use format_document::Document;
pub use format_inline::{BreakStyle, TableStyle};
pub use rule_set::{RULE_NAMES, RuleSet};
pub use rules::{RULES, Rule, all_edits};
pub use style::Style;
