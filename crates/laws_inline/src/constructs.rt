//! What a construct makes that is off never occurs: in a content, at any depth, or in a string, that is a title, a destination or an info.
ghost use Rattle.laws_inline.specs.Occurs.{NothingIsOff, OnlyStringLeaves};

/// No content has a part, at any depth, that a construct makes that is off.
#[tactic(auto, using(crate::proofs::Occurs::nothing_is_off))]
pub fn constructs_law()
    ensures { NothingIsOff }
{}

/// A title, a destination or an info has only bytes, escapes, what references stand for, and line endings: no escapes where they are off, no references
/// where those are off, and no other construct.
#[tactic(auto, using(crate::proofs::Strings::only_string_leaves))]
pub fn string_parts_law()
    ensures { OnlyStringLeaves }
{}
