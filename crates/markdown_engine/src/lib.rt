//! The engine: a tokenizer over virtual text, and what it stands on.
//!
//! States read a virtual text, attempt by attempt, and add events. Events are edited all at once.
#![tactic(auto)]

pub mod attempt;
pub mod chains;
pub mod fitting;
mod flush;
pub mod parse_state;
pub mod tokenize_state;
pub mod tokenizer;
pub mod virtual_text;

pub use chains::subtokenize;
pub use engine_chunks::{divide_events, link, link_all, link_to};
pub use engine_edits::EditMap;
pub use engine_events::{event, place};
pub use engine_states::{container, label, resolve, state, subresult};
pub use engine_text::{char, location, skip, slice};
pub use fitting::{are_apart, are_places};
pub use markdown_options::{
    Constructs, LineEnding, LineEndingError, Message, ParseOptions, Place, Tables, constants, unist,
};
pub use parse_state::ParseState;
