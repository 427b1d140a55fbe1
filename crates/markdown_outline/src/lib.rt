//! The outline of a text: its headings, with their ranks, places, texts and slugs.
//!
//!     let (events, _) = parse(rt.alloc(), text, &ParseOptions::gfm(), &Builtin)?;
//!     let found = outline(rt.alloc(), &events, text.as_bytes(), &Builtin)?;
//!     for heading in &found.headings {
//!         println!(rt; "{}: {} (#{})", heading.start.line, found.text(heading), found.slug(heading))?;
//!     }
#![tactic(auto)]

pub mod heading;
pub mod laws;
mod list;
mod rank;
mod said;

pub use heading::{Heading, Outline, Range};
pub use list::outline;
