//! The rules of the linter on headings, one file each.
#![tactic(auto)]

mod duplicate_heading;
mod heading_increment;
mod heading_punctuation;
mod heading_space;
mod rules;
mod second_title;

pub use rules::HeadingRules;
