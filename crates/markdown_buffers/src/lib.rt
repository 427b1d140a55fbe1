//! Markdown to HTML, to its events, its links and its headings, and any HTML to a page, written into buffers of
//! the caller's. Each call returns a status.
#![tactic(auto)]

pub mod convert;
pub mod events;
pub mod flat_event;
pub mod flat_heading;
pub mod flat_link;
pub mod links;
pub mod outline;
pub mod safe_page;
pub mod sanitize;
pub mod status;
pub mod texts;
