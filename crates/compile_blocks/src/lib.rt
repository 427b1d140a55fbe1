//! The leaf blocks of a list of events, their texts, tables and the endings between blocks, to HTML.
#![tactic(auto)]

pub mod gfm_table;
pub mod heading_atx;
pub mod heading_setext;
pub mod line_ending;
pub mod paragraph;
pub mod printer;
pub mod source;
pub mod text;
pub mod thematic_break;

pub use gfm_table::push_table;
pub use printer::LeafPrinter;
pub use source::Source;
pub use text::{TextPrinter, text_within};
