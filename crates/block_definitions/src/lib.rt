//! Link reference definitions at the front of a paragraph.
#![tactic(auto)]

pub mod front;

pub use front::{DefinitionEnd, first_definition, has_more, may_begin};
