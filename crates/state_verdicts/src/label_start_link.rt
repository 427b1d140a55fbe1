//! Starts of links (CommonMark 6.3).
ghost use Rattle.state_verdicts.specs.LabelStartLink.{LinkStartChoice, LinkStartVerdict};

/// At `[`, an attempt at the start of a link goes well exactly if these are on: its events are added,
/// and the start is kept.
pub fn label_start_link_verdict<T>()
    ensures { LinkStartVerdict T }
{}

/// At `[` that starts no call, reading continues after the start of a link exactly if these are on,
/// with its events added. Otherwise it continues with data at the same place.
pub fn label_start_link_choice<T>()
    ensures { LinkStartChoice T }
{}
