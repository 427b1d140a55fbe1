//! What is escaped is text.
ghost use Rattle.laws_escape.specs.Escaped.{EscapeLaw, StringEscapeLaw};

/// Where escapes are on, a line without tabs and without a space at either end, with a backslash
/// before each ASCII punctuation byte, prints itself as text.
pub fn escape_law()
    ensures { EscapeLaw }
{}

/// Where escapes are on, a text in which no space or tab stands beside a line ending, with a
/// backslash before each ASCII punctuation byte, gives itself back as a title, a destination or an
/// info.
#[tactic(auto, using(crate::proofs::EscapedString::string_escape_law))]
pub fn string_escape_law()
    ensures { StringEscapeLaw }
{}
