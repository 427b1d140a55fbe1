//! Blocks of math (in neither standard).
ghost use Rattle.state_verdicts.specs.MathFlow.{MathFlowVerdict};

/// Outside containers, at the first byte after the indent, if that is a dollar, an attempt at math
/// fails exactly if math is off or the line opens none. Otherwise it goes well, with the events of its
/// opening line and of all further lines: up to the first that closes the fence, or to the end of the
/// text.
pub fn math_flow_verdict<T>()
    ensures { MathFlowVerdict T }
{}
