//! The inline rows that the events of a text spell (CommonMark 6).
//!
//! A text is the content of a paragraph, a heading or a cell. Its events are read twice. The first
//! pass joins what isn't one piece of the text's bytes, and finds where links and images lead
//! (`compile_strings`). The second makes the rows, which borrow from the bytes and from what was
//! joined.
#![tactic(auto)]

pub mod law;
pub mod leaf;
pub mod rows;

pub use compile_strings::{Columns, SpelledStrings, TextEvents};
pub use rows::{alone_row, text_rows};
