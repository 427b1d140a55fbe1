//! The executable definition of Markdown to HTML, under one name.
#![tactic(auto)]

pub use markdown_options::{Beside, Container, Item, Kind};
