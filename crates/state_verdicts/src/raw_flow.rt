//! The lines of fenced code and of math, after the opening one (CommonMark 4.5).
ghost use Rattle.state_verdicts.specs.RawFlow.{ClosingFenceVerdict, RawFlowLinesVerdict};

/// At the first byte after the indent of a line within code or math, an attempt at a closing fence
/// goes well exactly if the line is one, with its events and up to the end of the line.
pub fn closing_fence_verdict<T>()
    ensures { ClosingFenceVerdict T }
{}

/// Outside containers, at the end of a line of code or math that isn't empty, reading goes well, with
/// the events of all further lines: up to the first that closes the fence, or to the end of the text.
pub fn raw_flow_lines_verdict<T>()
    ensures { RawFlowLinesVerdict T }
{}
