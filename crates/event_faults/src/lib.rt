//! The first fault of a list of events, by the grammar and by the places of the events.
#![tactic(auto)]

pub mod check;
pub mod fault;
pub mod place;

pub use check::Check;
pub use fault::{EventFault, FaultKind};
