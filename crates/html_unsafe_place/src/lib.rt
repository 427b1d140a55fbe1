//! Where a page isn't safe, and what is wrong there.
#![tactic(auto)]

mod place;
mod what;

pub use place::{UnsafePlace, first_unsafe};
pub use what::Unsafe;
