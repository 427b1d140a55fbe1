//! The definitions of a document, and where their labels lead.
#![tactic(auto)]

pub mod contents;
pub mod definitions;
pub mod gfm_footnote_definition;

pub use contents::{DefinitionContents, definition_contents};
pub use definitions::{Definitions, document_definitions};
pub use gfm_footnote_definition::{Footnotes, document_footnotes};
