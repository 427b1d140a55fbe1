//! Laws of the written definition: what follows from it for every text.
#![tactic(auto)]

pub mod columns;
pub mod constructs;
pub mod gfm_table;
pub mod lists;
pub mod rows;
pub mod text_lines;
