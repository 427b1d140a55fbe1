//! Texts and the codes of their bytes (CommonMark 2.1 and 2.2).
ghost use Rattle.state_verdicts.specs.TextCodes.{AreCodesLaw, TabCodesLaw, TextCodesLaw};

/// The virtual text of bytes gives their codes: a tab its columns, any line ending one line feed.
/// From inside a tab it gives each remaining column first.
pub fn text_codes_law()
    ensures text { TextCodesLaw }
    ensures tab { TabCodesLaw }
    ensures codes { AreCodesLaw }
{}
