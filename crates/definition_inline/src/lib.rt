//! What a content is: labels, references, and the inline tree.
#![tactic(auto)]
