//! What holds each row, and which lists are loose.
#![tactic(auto)]

pub mod level;
pub mod loose;

pub use level::{Holder, Level};
pub use loose::{Place, places};
