//! The texts of a document, printed.
#![tactic(auto)]

pub mod buffers;
pub mod gfm_table;
mod gfm_task_list_item;
mod heading;
pub mod texts;

pub use buffers::TextBuffers;
pub use texts::Texts;
