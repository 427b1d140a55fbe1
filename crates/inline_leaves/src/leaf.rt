//! What a content begins with.
use markdown_options::LineEnding;

/// What a literal leads to (GFM 6.9).
#[derive(Clone, Copy, Debug, PartialEq, Eq)]
pub enum LiteralKind {
    /// `http://` and its text, which begins with `www.`.
    Www,
    /// Its text, which begins with a protocol.
    Protocol,
    /// `mailto:` and its text, an email address.
    Email,
}

/// A construct that holds no other, with what of the content it prints.
#[derive(Clone, Copy, Debug, PartialEq, Eq)]
pub enum LeafPart<'a> {
    /// The one byte that a backslash escapes, which is ASCII punctuation (CommonMark 2.4).
    Escape(&'a str),
    /// The text that a name stands for (CommonMark 2.5).
    Character(&'a str),
    /// A character by its number: 1 to 7 decimal digits, or 1 to 6 hexadecimal ones (CommonMark 2.5).
    Number {
        /// 10 or 16.
        radix: u32,
        /// The digits.
        digits: &'a str,
    },
    /// The text of a code span between its runs of backticks (CommonMark 6.1).
    Code(&'a str),
    /// The text of math between its runs of dollars.
    Math(&'a str),
    /// A run of backticks or dollars that no other closes: text (CommonMark 6.1).
    Unclosed(&'a str),
    /// What stands between `<` and `>`: a URI, or an email address (CommonMark 6.5).
    Autolink {
        /// Whether it is an email address.
        email: bool,
        /// The URI or the address.
        text: &'a str,
    },
    /// A link with no brackets (GFM 6.9).
    Literal {
        /// What it leads to.
        kind: LiteralKind,
        /// Its text.
        text: &'a str,
    },
    /// Raw HTML (CommonMark 6.6).
    Html(&'a str),
    /// A hard line break by a backslash; its line ending comes after it (CommonMark 6.7).
    EscapedBreak,
    /// A hard line break by spaces; its line ending comes after it (CommonMark 6.7).
    TrailingBreak,
    /// A line ending, with the spaces and tabs after it (CommonMark 6.8).
    LineEnd(LineEnding),
    /// Spaces and tabs that aren't printed, at the end of a line or of the content (CommonMark 6.8).
    Spaces,
}

/// A construct, and what follows it.
#[derive(Clone, Copy, Debug, PartialEq, Eq)]
pub struct Leaf<'a> {
    /// What it is.
    pub part: LeafPart<'a>,
    /// The content after it.
    pub after: &'a str,
}
