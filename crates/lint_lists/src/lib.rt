//! The rules of the linter on lists and tables, one file each.
#![tactic(auto)]

mod item;
mod list_indent;
mod list_marker;
pub mod list_numbers;
mod nested_list_indent;
mod rules;
mod table_cells;

pub use rules::ListRules;
