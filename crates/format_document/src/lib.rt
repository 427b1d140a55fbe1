//! A text with the tree of its events, as the rules of the formatter read it.
#![tactic(auto)]

mod bytes;
mod document;
mod kids;
mod lines;
mod names;
mod node;
mod prefix;
mod tree;

pub use bytes::{is_space, trimmed};
pub use document::Document;
pub use kids::Kids;
pub use names::{holds_blocks, is_between_blocks, is_list};
pub use node::Node;
pub use prefix::Prefix;
