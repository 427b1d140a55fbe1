//! Resources and references of links, and definitions.
#![tactic(auto)]

pub mod definition;
pub mod destination;
pub mod names;
pub mod quoted;
pub mod reference;
pub mod resource;
pub mod white;

pub use definition::push_definition;
pub use reference::push_link_reference;
pub use resource::push_resource;
