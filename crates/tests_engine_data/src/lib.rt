//! Tests of the engine on given texts and heaps.
#![tactic(auto)]

#[cfg(test)]
mod compare;
#[cfg(test)]
mod machines;
#[cfg(test)]
mod memory;
