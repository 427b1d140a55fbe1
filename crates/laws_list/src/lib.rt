//! A text with `+ ` before its first line and two spaces before every other: it is one item of the text's blocks, and prints a
//! list of one item around the text's page.
#![tactic(auto)]

pub mod laws;
pub mod page;
