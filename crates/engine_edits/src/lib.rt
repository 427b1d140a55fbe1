//! Edits of a list of events, made as one replacement.
#![tactic(auto)]

pub mod edit;
pub mod edit_map;
pub mod relink;

pub use edit_map::EditMap;
