//! A formatter of Markdown that keeps a document the same.
#![tactic(auto)]

mod entry;
mod passes;

pub use entry::format;
pub use format_rules::{BreakStyle, RULE_NAMES, RuleSet, Style, TableStyle};
pub use markdown::SIZE_MAX;
