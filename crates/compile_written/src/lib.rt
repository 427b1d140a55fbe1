//! What of a list of events is computed ahead of printing: strings as they are written, the
//! definitions, the labels of footnotes, and which lists are loose.
#![tactic(auto)]

mod character_reference;
pub mod child;
pub mod definition;
pub mod gfm_footnote_definition;
pub mod list;
pub mod string;

pub use definition::{Definitions, read_definitions};
pub use gfm_footnote_definition::footnote_labels;
pub use list::loose_lists;
pub use string::{push_string, push_written};
