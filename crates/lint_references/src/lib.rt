//! The rules of the linter on references and definitions, one file each.
#![tactic(auto)]

mod definitions;
mod label;
mod rules;
mod undefined_reference;
mod unused_definition;

pub use rules::ReferenceRules;
