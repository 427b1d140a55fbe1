//! Blank lines (CommonMark 4.9).
ghost use Rattle.state_verdicts.specs.BlankLine.{BlankLineVerdict};

/// At the start of a line, an attempt at a blank line goes well exactly if nothing but spaces and tabs
/// is left of it, with their events and up to the end of the line.
pub fn blank_line_verdict<T>()
    ensures { BlankLineVerdict T }
{}
