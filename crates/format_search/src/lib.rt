//! The search for those edits of a text that keep the document the same.
#![tactic(auto)]

mod reader;
mod search;

pub use reader::{ReadText, Reader};
pub use search::Search;
