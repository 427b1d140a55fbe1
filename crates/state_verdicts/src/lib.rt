//! Attempts of states, compared with the definition, and the virtual text beside the codes of a content.
#![tactic(auto)]

pub mod autolink;
pub mod blank_line;
pub mod bom;
pub mod character_escape;
pub mod character_reference;
pub mod code_fenced;
pub mod code_indented;
pub mod code_text;
pub mod flow;
pub mod frontmatter;
pub mod gfm_label_start_footnote;
pub mod gfm_task_list_item;
pub mod hard_break_escape;
pub mod hard_break_trailing;
pub mod heading_atx;
pub mod heading_setext;
pub mod label_start_image;
pub mod label_start_link;
pub mod lines;
pub mod math_flow;
pub mod math_text;
pub mod raw_flow;
pub mod shown_bytes;
pub mod space_or_tab;
pub mod text;
pub mod text_codes;
pub mod thematic_break;
