//! Labels, destinations, titles and definitions of links.
#![tactic(auto)]

pub mod code;
pub mod definition;
pub mod destination;
pub mod label;
pub mod part;
pub mod resource;
pub mod space;
pub mod text;
pub mod title;

pub use definition::LinkDefinition;
pub use part::Part;
pub use space::{spaces, white};
pub use text::{LinkTexts, TextDefinition, TextPart, TextResource};
