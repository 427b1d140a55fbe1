//! Bytes found by vectors.
#![tactic(auto)]

pub mod class;
pub mod pair;
pub mod search;
pub mod set;

pub use class::{ByteClass, run_of};
pub use pair::{BytePair, next_far};
pub use search::{ByteTest, next_of};
pub use set::ByteSet;
