//! The rows of blocks, which the parser hands to the printer.
#![tactic(auto)]

pub mod row;

pub use row::Row;
