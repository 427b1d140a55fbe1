//! Machines that show the tokenizer at work, lawful by proof.
#![tactic(auto)]

pub mod brackets;
pub mod count;
pub mod letters;
pub mod readings;
pub mod tables;
