//! Converts Markdown to HTML, lists its events, links and headings, sanitizes HTML, and tests pages, called from C.
#![tactic(auto)]

mod convert;
mod convert_by_numbers;
mod convert_with;
mod events;
mod links;
mod outline;
mod safe_page;
mod sanitize;
mod texts;
mod version;
