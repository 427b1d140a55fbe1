//! What is printed as it stands: what is escaped, and any text with every construct off.
#![tactic(auto)]

pub mod character_escape;
pub mod page;
pub mod visible;
