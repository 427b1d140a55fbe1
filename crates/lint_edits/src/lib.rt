//! Edits that mend what the rules of the linter find, and the text after those edits that keep the document the same.
#![tactic(auto)]

mod blocks;
mod edits;
mod finder;
mod lines;
mod mend;

pub use finder::Finder;
pub use mend::{FirstEdits, first_edits, mended};
