//! The rules of the linter on lines and on white space between and in them, one file each.
#![tactic(auto)]

mod blank_lines;
mod code;
mod emphasis_spaces;
mod fence_blank_lines;
mod final_newline;
mod gap;
mod heading_blank_lines;
mod line_length;
mod list_blank_lines;
mod rules;
mod tab_indent;
mod trailing_spaces;

pub use rules::BlankRules;
