//! Autolinks (CommonMark 6.5).
ghost use Rattle.state_verdicts.specs.Autolink.{AutolinkChoice, AutolinkVerdict};

/// An attempt at an autolink goes well exactly where the definition has one, with its events and up
/// to its end: by a URI or by an email address.
pub fn autolink_verdict<T>()
    ensures { AutolinkVerdict T }
{}

/// At `<`, reading continues after an autolink exactly if the definition has one, with its events
/// added. Otherwise it continues with HTML at the same place.
pub fn autolink_choice<T>()
    ensures { AutolinkChoice T }
{}
