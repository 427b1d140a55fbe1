//! What the rest of a line says: which containers go on or start there, and which leaves start.
#![tactic(auto)]

pub mod block_quote;
pub mod code_fenced;
pub mod code_indented;
pub mod container;
pub mod container_line;
pub mod cursor;
pub mod frontmatter;
pub mod gfm_footnote_definition;
pub mod heading_atx;
pub mod heading_setext;
pub mod html_flow;
pub mod indent;
pub mod list_item;
pub mod math_flow;
pub mod plain;
pub mod thematic_break;

pub use container_line::ContainerLine;
pub use cursor::Cursor;
