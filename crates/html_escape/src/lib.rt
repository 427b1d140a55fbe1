//! Text, raw HTML and URLs as HTML.
//!
//! Each tool has a form that returns a text, and a form `push_` that appends to one.
#![tactic(auto)]

pub mod encode;
pub mod filter;
pub mod html;
pub mod laws;
mod replaced;
pub mod url;

pub use encode::push_encoded;
pub use filter::{gfm_tagfilter, push_filtered, push_raw};
pub use html::push_html;
pub use url::{
    is_permitted, is_relative, push_sanitized, push_sanitized_with_protocols, sanitize,
    sanitize_with_protocols,
};
