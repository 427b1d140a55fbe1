//! Strings: labels, destinations, titles and infos.
#![tactic(auto)]

pub mod character_escape;
pub mod character_reference;
pub mod string;

pub use string::push_string;
