//! Code spans (CommonMark 6.1).
ghost use Rattle.state_verdicts.specs.CodeText.{CodeTextChoice, CodeTextVerdict};

/// An attempt at a code span goes well exactly where a run of backticks begins and the definition has
/// a span, with its events and up to its end.
pub fn code_text_verdict<T>()
    ensures { CodeTextVerdict T }
{}

/// Before a part of a text that begins with a backtick, reading goes on after a code span exactly
/// where a run begins and the definition has one, with its events added, and otherwise with data at
/// the same place.
pub fn code_text_choice<T>()
    ensures { CodeTextChoice T }
{}
