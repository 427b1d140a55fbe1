//! Byte order marks (in neither standard).
ghost use Rattle.state_verdicts.specs.Bom.{BomVerdict};

/// At the start of a text, an attempt at a byte order mark goes well exactly if the text has one, with
/// its events and up to its end.
pub fn bom_verdict<T, V>()
    ensures { BomVerdict T V }
{}
