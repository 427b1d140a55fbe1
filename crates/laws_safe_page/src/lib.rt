//! The page of a text is a safe page.
#![tactic(auto)]

pub mod laws;
