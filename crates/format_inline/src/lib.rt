//! The rules of the formatter for inline structure and tables. Each is a file of its own.
#![tactic(auto)]

pub mod attention;
mod cells;
pub mod gfm_table;
pub mod hard_break;
mod layout;
mod style;

pub use style::{BreakStyle, TableStyle};
