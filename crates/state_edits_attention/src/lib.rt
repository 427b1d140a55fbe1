//! Edits that put spans in place of runs: emphasis, strong emphasis and the others.
#![tactic(auto)]

pub mod attention;
