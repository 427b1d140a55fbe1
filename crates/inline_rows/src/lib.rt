//! The rows of inline structure, which the inline parser hands to the printer, and the runs of a
//! container told apart among them (CommonMark 6).
#![tactic(auto)]

pub mod row;
mod tell;

pub use row::{InlineRow, LinkTarget, SpelledLeaf, VerbatimText};
pub use tell::tell_apart;
