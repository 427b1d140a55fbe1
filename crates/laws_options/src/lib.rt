//! Options that make no difference.
#![tactic(auto)]

pub mod gfm_footnote_definition;
pub mod gfm_task_list_item;
pub mod laws;
