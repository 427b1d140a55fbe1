//! How findings are printed: a line, or an object of JSON.
#![tactic(auto)]

pub mod json;
pub mod output;

pub use output::{Form, write_findings};
