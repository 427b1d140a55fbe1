//! Rows of blocks to HTML.
#![tactic(auto)]

mod leaf_block;
pub mod printer;

pub use printer::print_rows;
