//! Lines to blocks.
#![tactic(auto)]

mod code_fenced;
mod code_indented;
mod gfm_table;
mod heading_setext;
mod html_flow;
mod parser;

pub use parser::{BlockRows, block_rows};
