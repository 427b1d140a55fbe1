//! Events of tables.
#![tactic(auto)]

pub mod cells;
pub mod delimiters;
pub mod gfm_table;

pub use gfm_table::push_table;
