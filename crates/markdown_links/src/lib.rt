//! The links of a text: where they are, and where they lead.
//!
//!     let (events, _) = parse(rt.alloc(), text, &ParseOptions::gfm(), &Builtin)?;
//!     let found = links(rt.alloc(), &events, text.as_bytes(), &Builtin)?;
//!     for link in &found.links {
//!         println!(rt; "{}: {}", link.start.line, found.destination(link))?;
//!     }
#![tactic(auto)]

mod definition;
mod kind;
pub mod link;
mod list;
mod span;
mod target;

pub use kind::LinkKind;
pub use link::{Link, Links, Range};
pub use list::links;
