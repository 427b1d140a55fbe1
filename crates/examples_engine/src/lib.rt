//! Values of the engine's data, which its specs compute.
#![tactic(auto)]
