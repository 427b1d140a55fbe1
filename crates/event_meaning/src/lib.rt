//! What events mean: the page that a list of events spells.
#![tactic(auto)]
