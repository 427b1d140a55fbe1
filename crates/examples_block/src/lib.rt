//! Texts with blocks, checked by computation.
#![tactic(auto)]
