//! What the HTML of a text is.
#![tactic(auto)]
