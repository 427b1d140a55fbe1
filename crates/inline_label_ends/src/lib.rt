//! What a `]` forms with the label start before it.
#![tactic(auto)]

pub mod forms;
pub mod gfm_label_start_footnote;
mod text;

pub use forms::{LabelEnd, label_end};
pub use gfm_label_start_footnote::{LabelForm, call_or_link, link_or_image};
