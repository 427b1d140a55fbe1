//! Texts with inline structure, and their HTML, which the definition computes.
#![tactic(auto)]
