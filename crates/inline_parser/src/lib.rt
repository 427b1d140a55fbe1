//! The inline structure of a content (CommonMark 6).
#![tactic(auto)]

pub mod found;
mod gfm_autolink_literal;
pub mod scan;

pub use found::FoundRows;
pub use inline_reading::{Room, RowRoom};
pub use scan::{content_start, inline_rows};
