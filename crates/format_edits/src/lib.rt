//! Edits of a text, in groups that are applied together or not at all.
#![tactic(auto)]

mod edits;
mod window;

pub use edits::Edits;
pub use window::Window;
