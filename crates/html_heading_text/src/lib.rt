//! What a heading says, and texts that inline HTML is printed of, too: forms of a text, characters
//! by number, and code.
#![tactic(auto)]

pub mod character_reference;
pub mod code_text;
pub mod form;
pub mod heading_text;

pub use heading_text::{Endings, push_heading_lines, push_heading_text};
