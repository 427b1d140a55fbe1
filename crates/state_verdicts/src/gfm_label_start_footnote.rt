//! Starts of footnote calls (in neither standard).
ghost use Rattle.state_verdicts.specs.GfmLabelStartFootnote.{CallStartChoice, CallStartVerdict};

/// At `[`, an attempt at the start of a call goes well exactly where the definition has one: its
/// events are added, and the start is kept.
pub fn gfm_label_start_footnote_verdict<T>()
    ensures { CallStartVerdict T }
{}

/// At `[`, reading continues after the start of a call exactly if the definition has one, with its
/// events added. Otherwise it continues with the start of a link at the same place.
pub fn gfm_label_start_footnote_choice<T>()
    ensures { CallStartChoice T }
{}
