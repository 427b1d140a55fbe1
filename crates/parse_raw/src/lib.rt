//! Events of the blocks whose lines are taken as they are: code, math, HTML, breaks, blank lines, frontmatter.
#![tactic(auto)]

pub mod blank_line;
pub mod code_fenced;
pub mod code_indented;
pub mod code_lines;
pub mod fence_names;
pub mod frontmatter;
pub mod html_flow;
pub mod math_flow;
pub mod texts;
pub mod thematic_break;

pub use blank_line::push_blank_line;
pub use code_fenced::{push_fenced_code, push_unclosed_code, push_whole_code};
pub use code_indented::push_indented_code;
pub use frontmatter::push_frontmatter;
pub use html_flow::push_html;
pub use texts::Texts;
pub use thematic_break::push_thematic_break;
