//! The ids of headings, as GitHub makes them.
#![tactic(auto)]

pub mod laws;
pub mod slug;
pub mod slugs;

pub use slug::push_slug;
pub use slugs::Slugs;
