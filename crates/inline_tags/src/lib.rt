//! The tags of HTML (CommonMark 6.6).
#![tactic(auto)]

pub mod tags;

pub use tags::{closing_tag, open_tag};
