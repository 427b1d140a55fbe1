//! Fenced code, and its opening line (CommonMark 4.5).
ghost use Rattle.state_verdicts.specs.CodeFenced.{CodeFencedVerdict, CodeFencedWholeVerdict};

/// At the first byte after the indent, if that is no dollar, an attempt at fenced code fails exactly
/// if fences are off or the line opens none. Otherwise reading continues at the end of the line, with
/// the events of the fence first.
pub fn code_fenced_verdict<T>()
    ensures { CodeFencedVerdict T }
{}

/// Outside containers, at the first byte after the indent, if that is no dollar, an attempt at fenced
/// code fails exactly if fences are off or the line opens none. Otherwise it goes well, with the
/// events of its opening line and of all further lines: up to the first that closes the fence, or to
/// the end of the text.
pub fn code_fenced_whole_verdict<T>()
    ensures { CodeFencedWholeVerdict T }
{}
