//! The lines of a text, with the prefixes of containers, and contents among them.
#![tactic(auto)]

pub mod content;
pub mod cut;
pub mod prefix;
pub mod walk;

pub use walk::Walk;
