//! What is done with the events of a document once its lines are read.
#![tactic(auto)]

pub mod content;
pub mod resolving;
