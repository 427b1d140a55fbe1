//! Character references (CommonMark 2.5).
ghost use Rattle.state_verdicts.specs.CharacterReference.{CharacterReferenceChoice, CharacterReferenceVerdict};

/// An attempt at a reference goes well exactly where the definition has one, with its events and up
/// to its end: by a name that the tables have, or by a number.
pub fn character_reference_verdict<T>()
    ensures { CharacterReferenceVerdict T }
{}

/// At `&`, reading continues after a reference exactly if the definition has one, with its events
/// added. Otherwise it continues with data at the same place.
pub fn character_reference_choice<T>()
    ensures { CharacterReferenceChoice T }
{}
