//! Hard line breaks by a backslash (CommonMark 6.7).
ghost use Rattle.state_verdicts.specs.HardBreakEscape.{BreakChoice, BreakVerdict};

/// An attempt at a hard break goes well exactly where the definition has one, with its events and up
/// to its end, in a content that doesn't end in a line ending.
pub fn hard_break_escape_verdict<T>()
    ensures { BreakVerdict T }
{}

/// Before a backslash that escapes nothing, reading goes on after a hard break exactly where the
/// definition has one, with its events added, and otherwise with data at the same place.
pub fn hard_break_escape_choice<T>()
    ensures { BreakChoice T }
{}
