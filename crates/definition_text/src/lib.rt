//! What a text is: lines, columns, contents as codes, and the kinds of characters.
#![tactic(auto)]
