//! Rows of inline structure to events.
#![tactic(auto)]

pub mod code_text;
pub mod gfm_autolink_literal;
pub mod gfm_footnote_call;
pub mod gfm_task_list_item;
pub mod label;
pub mod leaf;
pub mod lines;
pub mod opened;
pub mod reading;
pub mod rows;
pub mod span;
pub mod verbatim;

pub use opened::Open;
pub use reading::Reading;
pub use rows::push_rows;
