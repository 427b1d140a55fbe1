//! Checks a list of events against the grammar, and reads looseness and alignments from a checked
//! list.
#![tactic(auto)]

pub mod align;
pub mod checked;
pub mod error;
pub mod loose;

pub use align::gfm_table_align;
pub use checked::{Checked, check_events};
pub use error::CompileError;
pub use loose::{list_item_loose, list_loose};
