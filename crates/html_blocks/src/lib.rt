//! The blocks of a text, by their lines, and starts and ends of containers, to HTML.
#![tactic(auto)]

pub mod block_quote;
pub mod code_fenced;
pub mod container;
pub mod gfm_footnote_definition;
pub mod gfm_table;
mod heading;
pub mod heading_atx;
pub mod heading_setext;
pub mod list;
pub mod list_item;
pub mod paragraph;
pub mod printer;

pub use container::Containers;
pub use gfm_table::table;
pub use printer::LeafPrinter;
