//! Hard line breaks by trailing spaces (CommonMark 6.7).
ghost use Rattle.state_verdicts.specs.HardBreakTrailing.{EarlierVerdict, TrailingVerdict};

/// Spaces and tabs at the end of data become a hard break in a text exactly where the definition has
/// one, and white space that isn't printed where it has that; before them it has neither in the data.
pub fn hard_break_trailing_verdict()
    ensures end { TrailingVerdict }
    ensures before { EarlierVerdict }
{}
