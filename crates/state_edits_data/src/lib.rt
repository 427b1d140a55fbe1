//! Edits of data, of white space and of runs within code, and what all edits are found by.
#![tactic(auto)]

pub mod each;
pub mod partial_data;
pub mod partial_whitespace;
pub mod raw_text;
