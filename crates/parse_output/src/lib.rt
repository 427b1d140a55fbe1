//! Events of a text, written one after another, and their points.
#![tactic(auto)]

pub mod draft;
pub mod end;
pub mod output;
pub mod pass;
pub mod points;
pub mod spot;

pub use end::{End, at};
pub use output::Output;
