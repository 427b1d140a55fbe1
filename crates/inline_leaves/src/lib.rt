//! What the inline constructs that hold no other are read as, and those of them that need no search
//! (CommonMark 2.4, 2.5, 6.7 and 6.8).
#![tactic(auto)]

pub mod character_escape;
pub mod character_reference;
pub mod cut;
pub mod gfm_task_list_item;
pub mod hard_break_escape;
pub mod hard_break_trailing;
pub mod leaf;
pub mod line_ending;
pub mod space;

pub use gfm_task_list_item::Check;
pub use leaf::{Leaf, LeafPart, LiteralKind};
