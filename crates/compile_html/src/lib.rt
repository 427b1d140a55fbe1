//! Events to HTML.
#![tactic(auto)]

pub mod block_quote;
pub mod container;
pub mod gfm_footnote_definition;
pub mod list;
pub mod list_item;
pub mod printer;
pub mod to_html;

pub use to_html::{compile, compile_checked};
