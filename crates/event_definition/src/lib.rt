//! What the events of a text are.
#![tactic(auto)]
