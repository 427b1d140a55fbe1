//! The inline constructs that hold no other, found by their first byte (CommonMark 6).
#![tactic(auto)]

mod autolink;
mod byte_class;
mod code_text;
mod html_text;
pub mod leaf_at;
mod math_text;
mod raw_runs;
mod raw_text;
pub mod searches;
