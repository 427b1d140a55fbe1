//! Indented code (CommonMark 4.4).
ghost use Rattle.state_verdicts.specs.CodeIndented.{CodeIndentedVerdict, CodeIndentedWholeVerdict};

/// At the start of a line that is not blank, an attempt at indented code fails exactly if it is off,
/// would interrupt a paragraph, or the line has fewer than four columns of white space. Otherwise
/// reading continues after four columns, with their events added.
pub fn code_indented_verdict<T>()
    ensures { CodeIndentedVerdict T }
{}

/// Outside containers, at the start of a line that is not blank, an attempt at indented code goes well
/// exactly if code begins there. It then has the events of all lines of the code, and ends where the
/// code does.
pub fn code_indented_whole_verdict<T>()
    ensures { CodeIndentedWholeVerdict T }
{}
