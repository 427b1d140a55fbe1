// FROM parse_written
//! Laws of where inline structure stands in its content, as a tree and row by row.
#![tactic(auto)]

pub mod rows;
pub mod written;
