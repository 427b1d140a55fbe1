//! A text with `> ` before every line: it is one quote of the text's blocks, and prints a block quote around the text's page.
#![tactic(auto)]

pub mod laws;
pub mod page;
