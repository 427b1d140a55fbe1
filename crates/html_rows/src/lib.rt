//! What rows of blocks print: laws without code, which the printers of blocks are proved by.
#![tactic(auto)]
