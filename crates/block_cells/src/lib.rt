//! The cells of tables, which parser and printer both read off lines.
#![tactic(auto)]

pub mod gfm_table;

pub use gfm_table::{Cell, Cells, has_cells, read_delimiters};
