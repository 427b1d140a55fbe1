//! What no clause says of options, and on which side of the built-in tables some names and characters are.
#![tactic(auto)]

#[cfg(test)]
mod asserts;
#[cfg(test)]
mod options;
#[cfg(test)]
mod tables;
