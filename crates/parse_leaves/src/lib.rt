//! Events of the blocks that hold no others, tables apart.
#![tactic(auto)]

pub mod buffers;
pub mod definition;
pub mod heading;
pub mod heading_atx;
pub mod heading_setext;
pub mod leaf;
pub mod paragraph;
pub mod text;

pub use buffers::Buffers;
pub use leaf::push_leaf;
pub use text::push_text;
