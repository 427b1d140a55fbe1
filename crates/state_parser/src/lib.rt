//! The events of a text by the machines: blocks, then what is in them.
#![tactic(auto)]

mod blocks;
mod containers;
mod events;
mod labels;
mod merge;
mod merged;
pub mod parser;
mod starts;
mod texts;

pub use parser::{parse_by_machines, parse_in_ranges};
