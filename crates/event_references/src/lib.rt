//! Finds links, images and footnote calls whose labels have no definition in a list of events.
#![tactic(auto)]

pub mod label;
pub mod labels;
pub mod lost;

pub use lost::first_lost;
