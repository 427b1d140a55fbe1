//! Named character references (CommonMark 2.5) and Unicode punctuation (CommonMark 2.1): the
//! built-in tables, and rows of a caller.
#![tactic(auto)]

mod name_texts;
pub mod punctuation;
mod row;
pub mod rows;
pub mod rows_error;
pub mod tables;

pub use punctuation::is_unicode_punctuation;
pub use rows::Rows;
pub use rows_error::RowsError;
pub use tables::Builtin;
