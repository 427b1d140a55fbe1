//! What is done with the events of a text or a string once it is read.
#![tactic(auto)]

pub mod edited_events;
pub mod resolving;
pub mod whole;
