//! The events of the files that the linter reads, and the files that these link to.
#![tactic(auto)]

pub mod events;
pub mod folder;
pub mod known;

pub use events::events_of;
pub use folder::FolderOf;
pub use known::KnownFragments;
