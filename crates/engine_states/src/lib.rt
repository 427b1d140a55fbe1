//! States, and the plain data that a tokenizer keeps: labels, containers, resolvers.
//!
//! Indices are in events, sizes in columns.
#![tactic(auto)]

pub mod container;
pub mod label;
pub mod resolve;
pub mod state;
pub mod subresult;

pub use container::{Container, ContainerState};
pub use label::{Label, LabelKind, LabelStart};
pub use state::State;
pub use subresult::Subresult;
