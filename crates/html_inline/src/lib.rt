//! Inline structure to HTML (CommonMark 6).
#![tactic(auto)]

pub mod autolink;
pub mod code_text;
pub mod count;
mod gfm_autolink_literal;
mod gfm_label_start_footnote;
pub mod gfm_table;
pub mod gfm_task_list_item;
pub mod html_text;
pub mod label_end;
pub mod leaf;
pub mod math_text;
pub mod printing;
pub mod rows;
mod spelled;
mod stack;
pub mod string;
pub mod url;

pub use count::count_rows;
pub use gfm_task_list_item::push_check;
pub use printing::{Printing, Scratch};
pub use rows::{push_alone, push_rows};
pub use string::{push_encoded_string, push_string};
