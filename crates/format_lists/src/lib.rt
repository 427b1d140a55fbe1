//! The rules of the formatter for lists. Each is a file of its own.
#![tactic(auto)]

pub mod bullet_marker;
mod columns;
pub mod list_lines;
mod number;
mod walk;
