//! What is printed, in bytes: what printers are proved to print, which is the page of the definition.
#![tactic(auto)]
