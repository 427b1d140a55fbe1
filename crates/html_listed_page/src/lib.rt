//! A test of listed pages (`html_listed`): safe pages that may have tags of the list, too. It knows
//! nothing of Markdown.
#![tactic(auto)]

mod attributes;
mod page;
mod tags;
mod text;

pub use page::is_listed_page;
