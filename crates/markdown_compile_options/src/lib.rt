//! How HTML is printed, and the options of a call: how its text is read, and how it is printed.
//!
//! They are a crate of their own, since nothing that reads texts depends on them.
#![tactic(auto)]

pub mod configuration;

pub use configuration::{CompileOptions, Options};
