//! The page, and what is printed on it without the texts of a document.
#![tactic(auto)]

pub mod code_fenced;
pub mod code_indented;
pub mod code_lines;
pub mod gfm_footnote_definition;
pub mod gfm_table;
pub mod heading;
pub mod html_flow;
pub mod list;
pub mod page;
pub mod thematic_break;

pub use page::Page;
