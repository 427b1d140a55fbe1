//! What the rows of a text ask of its events ahead: strings that aren't one piece of the bytes, and
//! where links and images lead (CommonMark 6.1, 6.3 and 6.4).
#![tactic(auto)]

pub mod columns;
pub mod label_end;
pub mod raw_text;
pub mod spelled;
pub mod texts;

pub use columns::Columns;
pub use spelled::SpelledStrings;
pub use texts::TextEvents;
