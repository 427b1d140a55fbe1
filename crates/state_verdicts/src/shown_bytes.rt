//! Letters, digits and ends of lines of texts, and their bytes.
ghost use Rattle.state_verdicts.specs.TextBlank.{TextBlankLaw};
ghost use Rattle.state_verdicts.specs.TextBytes.{TextBytesLaw};

/// The letters and digits of a virtual text are in the bytes that it is read from.
pub fn text_bytes_law()
    ensures { TextBytesLaw }
{}

/// In the virtual text of bytes a line ends after spaces and tabs exactly if it does so in the bytes.
pub fn text_blank_law()
    ensures { TextBlankLaw }
{}
