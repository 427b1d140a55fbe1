//! Edits that make blocks of what flow has read: the texts of ATX headings, headings with an underline, lists,
//! tables; and the lines of paragraphs as chains.
#![tactic(auto)]

mod added;
pub mod content;
pub mod gfm_table;
mod gfm_table_row;
pub mod heading_atx;
pub mod heading_setext;
pub mod list_item;
