//! What the blocks of a text are.
#![tactic(auto)]
