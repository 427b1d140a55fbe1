//! Events, links and points: what a text is read as.
//!
//! Indices are in bytes of the text or in events; lines and columns count from 1.
#![tactic(auto)]

pub mod event;
pub mod place;

pub use event::{Content, Event, Kind, Link, VOID_EVENTS};
pub use place::Point;
