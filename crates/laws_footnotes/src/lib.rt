//! Numbers of footnotes, where they stand, and ids of headings.
#![tactic(auto)]

pub mod footnotes;
