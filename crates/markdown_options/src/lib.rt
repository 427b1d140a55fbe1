//! The plain data of all crates: options of reading, line endings, places, messages, limits, tables,
//! containers, and the neighbours of a line.
//!
//! Sizes and offsets are in bytes. Lines and columns count from 1.
#![tactic(auto)]

pub mod align_kind;
pub mod beside;
pub mod configuration;
pub mod constants;
pub mod container;
pub mod line_ending;
pub mod message;
pub mod tables;
pub mod unist;

pub use align_kind::AlignKind;
pub use beside::{Beside, Kind};
pub use configuration::{Constructs, ParseOptions};
pub use container::{Container, Item};
pub use line_ending::{LineEnding, LineEndingError};
pub use message::{Message, Place};
pub use tables::Tables;
