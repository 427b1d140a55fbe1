//! Labels of definitions, in the form in which they match.
#![tactic(auto)]

pub mod label;
pub mod table;
mod words;

pub use label::{normalize_identifier, normalize_label};
pub use table::LabelTable;
