//! Thematic breaks (CommonMark 4.1).
ghost use Rattle.state_verdicts.specs.ThematicBreak.{ThematicBreakVerdict};

/// At the first byte after the indent, an attempt at a thematic break goes well exactly if breaks are
/// on and the line is one, with its events and up to the line's end.
pub fn thematic_break_verdict<T>()
    ensures { ThematicBreakVerdict T }
{}
