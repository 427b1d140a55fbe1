//! Places, slices and characters of a text, and runs of events that are skipped.
//!
//! Offsets and indices are in bytes or in events; lines and columns count from 1.
#![tactic(auto)]

pub mod bytes;
pub mod char;
pub mod location;
pub mod skip;
pub mod slice;

pub use location::{Location, Stop};
