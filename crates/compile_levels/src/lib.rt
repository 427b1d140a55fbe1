//! The blocks of a list of events: which event is which, what is open, and what stands in each.
#![tactic(auto)]

pub mod kind;
pub mod level;
pub mod node;

pub use kind::{BlockKind, kind_of};
pub use level::{Holder, Level};
pub use node::{Node, Sibling, child, first_node, kids_in, node_after};
