//! Raw HTML that is kept by a list: the page that it makes.
#![tactic(auto)]
