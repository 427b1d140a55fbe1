//! Any HTML to a page that has only the elements and attributes of a list (`html_listed`). It knows
//! nothing of Markdown.
#![tactic(auto)]

mod attributes;
mod elements;
mod listed;
mod listing;
mod page;
mod raw;
mod sanitized;
mod urls;

pub use listed::{listed_html, with_listed};
pub use sanitized::sanitized_html;
