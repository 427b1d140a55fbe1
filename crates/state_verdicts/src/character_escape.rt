//! Backslash escapes (CommonMark 2.4).
ghost use Rattle.state_verdicts.specs.CharacterEscape.{EscapeChoice, EscapeVerdict};

/// An attempt at an escape goes well exactly where the definition has one, with its events and up to
/// its end.
pub fn character_escape_verdict<T>()
    ensures { EscapeVerdict T }
{}

/// At a backslash, reading continues after an escape exactly if the definition has one, with its
/// events added. Otherwise it continues with a hard break at the same place.
pub fn character_escape_choice<T>()
    ensures { EscapeChoice T }
{}
