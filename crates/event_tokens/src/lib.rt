//! Which bytes an event that holds no other may have, by its name.
#![tactic(auto)]

ghost use Rattle.event_tokens.specs.Laws.{TokensAreCharacters};

/// The bytes of a token are whole characters.
#[tactic(auto, using(crate::proofs::Characters::tokens_are_characters))]
pub fn characters_law()
    ensures { TokensAreCharacters }
{}
