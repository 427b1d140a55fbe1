//! The choice of flow by the byte at hand (CommonMark 4).
ghost use Rattle.state_verdicts.specs.FlowChoices.{FlowFailsLaw, FlowIndentChoice, FlowStartChoice, FlowWhiteChoice};

/// An attempt at a block that may not begin with the byte at hand fails. So an attempt that flow
/// leaves out could not have gone well.
pub fn flow_fails_law<T>()
    ensures { FlowFailsLaw T }
{}

/// At the start of a line that begins with no white space, flow attempts exactly the blocks that may
/// begin with the byte, in order, and goes on after the first that goes well. Where none does, a table
/// or content comes.
pub fn flow_start_choice<T>()
    ensures { FlowStartChoice T }
{}

/// At a line that begins with white space or has none left, flow attempts a blank line and indented
/// code. Where neither is, HTML comes.
pub fn flow_white_choice<T>()
    ensures { FlowWhiteChoice T }
{}

/// After an indent that is not that of code, flow attempts exactly the blocks that may begin with the
/// byte, in order, and goes on after the first that goes well. Where none does, a table or content
/// comes.
pub fn flow_indent_choice<T>()
    ensures { FlowIndentChoice T }
{}
