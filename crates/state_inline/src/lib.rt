//! Texts and strings, and the machine that reads them.
#![tactic(auto)]

pub mod inlines;
pub mod reading;
pub mod string;
pub mod text;
