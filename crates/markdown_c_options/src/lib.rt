//! The options of the calls for C: sums of flags, and the struct of options.
#![tactic(auto)]

mod constructs;
pub mod flags;
pub mod flat_options;
pub mod switches;
