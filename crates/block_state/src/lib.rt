//! The rows so far, and the leaf that is open.
#![tactic(auto)]

mod leaf;
mod rows;
pub mod whole_lines;

pub use leaf::OpenLeaf;
pub use rows::Rows;
