//! Programs of states.
#![tactic(auto)]

pub mod around;
pub mod steps;
