//! The page of a list of events is a safe page.
#![tactic(auto)]

pub mod laws;
