//! Functions with the contracts of others, on which wrong bodies are tried.
//!
//! Each calls the function whose contract it has. The gate puts a wrong body in its place
//! (`must-fail/`), which the prover must refuse. `bench/wrong.py twins` compares the contracts.
#![tactic(auto)]

pub mod blocks;
pub mod definition;
pub mod edit_map;
pub mod label_end;
pub mod labels;
pub mod lines;
pub mod looseness;
pub mod read;
pub mod rows;
pub mod run;
pub mod to_html;
pub mod words;
