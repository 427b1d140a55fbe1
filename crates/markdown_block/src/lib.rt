//! Markdown to events: [`parse`], and the types of what it returns.
//!
//!     let (events, state) = parse(rt.alloc(), text, &ParseOptions::default(), &Builtin)?;
//!
//! All calls and their types are exported here. The modules have the names of the files of the Rust
//! crate `markdown`.
#![tactic(auto)]

pub use engine_events::{Event, Kind, Point, VOID_EVENTS};
pub use markdown_options::{
    Constructs, LineEnding, LineEndingError, Message, ParseOptions, Place, Tables, configuration,
    constants as constant, line_ending, message, unist,
};
pub use markdown_tables::{Builtin, Rows, RowsError};
pub use parse_events::{ParseState, SIZE_MAX, parse};

/// Events: each enters or exits something at a point of the text.
pub mod event {
    pub use engine_events::event::{Content, Event, Kind, Link, Name, VOID_EVENTS};
    pub use engine_events::place::Point;
}

/// A text to its events, and what it was read by.
pub mod parser {
    pub use parse_events::{ParseState, parse};
}
