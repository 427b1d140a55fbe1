//! A text with another line ending in place of each LF: it is the same with that ending, and prints the text's page with it.
//! What its codes stand for.
#![tactic(auto)]

pub mod kinds;
pub mod laws;
pub mod page;
pub mod symbols;
