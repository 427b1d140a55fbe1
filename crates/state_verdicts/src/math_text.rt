//! Math between dollars (in neither standard).
ghost use Rattle.state_verdicts.specs.MathText.{MathTextChoice, MathTextVerdict};

/// An attempt at math goes well exactly where a run of dollars begins and the definition has a span,
/// with its events and up to its end.
pub fn math_text_verdict<T>()
    ensures { MathTextVerdict T }
{}

/// Before a part of a text that begins with a dollar, reading goes on after math exactly where a run
/// begins and the definition has a span, with its events added, and otherwise with data at the same
/// place.
pub fn math_text_choice<T>()
    ensures { MathTextChoice T }
{}
