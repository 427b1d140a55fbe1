//! The rules of the formatter for lines and blocks. Each is a file of its own.
#![tactic(auto)]

pub mod blank_around;
pub mod blank_lines;
pub mod code_fenced;
pub mod code_indented;
pub mod definition;
pub mod file_ends;
pub mod heading_atx;
pub mod heading_setext;
pub mod thematic_break;
pub mod trailing_spaces;
