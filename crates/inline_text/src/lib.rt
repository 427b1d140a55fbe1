//! Text at the front of a content (CommonMark 6.9).
#![tactic(auto)]

mod letters;
mod mark;
pub mod plain;

pub use plain::{Front, front_of};
