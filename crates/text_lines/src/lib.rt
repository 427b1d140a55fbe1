//! The lines of a text.
#![tactic(auto)]

pub mod blank;
pub mod line;
pub mod mark;

pub use blank::{is_blank, trim};
pub use line::next_line;
pub use mark::without_mark;
