//! Raw HTML that is kept by a list: the list, the page that it makes, and laws of it.
#![tactic(auto)]

pub mod laws;
pub mod listing;
