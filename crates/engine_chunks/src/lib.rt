//! Chunks of a text that were read together, and the events that come in place of each.
#![tactic(auto)]

pub mod chunks;
pub mod divide;
mod join;

pub use divide::divide_events;
pub use join::{link, link_all, link_to};
