//! Leaf blocks: how each starts, goes on and ends.
#![tactic(auto)]

pub mod code_fenced;
pub mod code_indented;
mod definition;
mod gfm_footnote_definition;
mod gfm_table;
mod heading_atx;
mod heading_setext;
pub mod html_flow;
mod leaves;
mod paragraph;
mod thematic_break;

pub use leaves::{Leaves, piece};
