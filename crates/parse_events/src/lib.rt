//! A text to its events.
#![tactic(auto)]

pub mod document;
pub mod labels;
pub mod opened;
pub mod parser;
pub mod state;

pub use document::{SIZE_MAX, parse};
pub use state::ParseState;
