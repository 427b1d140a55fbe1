//! The content of a block's lines, and what stands beside it.
#![tactic(auto)]

pub mod buffer;
pub mod content;
pub mod line;
pub mod mark;
pub mod previous;
pub mod run;
pub mod whole;

pub use buffer::ContentBuffer;
pub use content::Content;
pub use line::line_content;
pub use run::first_kind;
pub use whole::whole_content;
