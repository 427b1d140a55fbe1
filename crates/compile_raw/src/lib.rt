//! The raw blocks of events, code, math and HTML, and line endings, to HTML.
#![tactic(auto)]

pub mod code_fenced;
pub mod code_indented;
pub mod html_flow;
pub mod line_ending;
pub mod math_flow;
pub mod piece;
pub mod raw;

pub use code_fenced::push_code_fenced;
pub use code_indented::push_code_indented;
pub use html_flow::push_html_flow;
pub use line_ending::{ending_of, push_endings};
pub use math_flow::push_math_flow;
