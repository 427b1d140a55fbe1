//! The rules of the linter on raw HTML and code, one file each, and the comments that turn rules off.
#![tactic(auto)]

mod code_language;
mod raw_html;
mod rules;
pub mod switch;

pub use rules::RawRules;
pub use switch::{Comments, Switch, comments_of};
