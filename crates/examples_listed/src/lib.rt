//! HTML that is kept by the list, and what is made of it, which the definition computes.
#![tactic(auto)]
