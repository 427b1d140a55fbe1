//! Which definition a label leads to, in whatever containers both stand.
#![tactic(auto)]

pub mod definition;
