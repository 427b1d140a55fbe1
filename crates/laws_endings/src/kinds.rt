//! The law of the kinds of characters that count in a content.
ghost use Rattle.laws_endings.specs.Kinds.{KindsLaw};

/// The inline structure of a content depends on no kind inside of a character.
#[tactic(auto, using(crate::proofs::Neighbours::kinds_law))]
pub fn kinds_law()
    ensures { KindsLaw }
{}
