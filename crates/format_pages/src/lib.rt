//! Texts read by options, and compared: whether two are the same document.
#![tactic(auto)]

mod calls;
mod closed;
mod constructs;
mod front;
mod hidden;
mod known;
mod reader;

pub use known::Known;
pub use reader::{ByOptions, read_by};
