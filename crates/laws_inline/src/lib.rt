//! Laws of the definition of inline structure: what follows from it for every content.
#![tactic(auto)]

pub mod attention;
pub mod constructs;
pub mod label_start_link;
pub mod labels;
