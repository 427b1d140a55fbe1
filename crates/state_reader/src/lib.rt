//! The flow of a text's lines, read by a tokenizer that has no text between them.
#![tactic(auto)]

pub mod flow;
pub mod reader;
pub mod span;
