//! The lines of a block as pieces of the text, and their content.
#![tactic(auto)]

pub mod content;
pub mod piece;

pub use content::{join_lines, push_columns, push_ending, push_line};
pub use piece::Piece;
