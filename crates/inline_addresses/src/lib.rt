//! Email addresses among the rows of a content, and links without literals (GFM 6.9).
#![tactic(auto)]

pub mod links;
pub mod walk;

pub use links::may_link;
pub use walk::{linked_rows, push_texts};
