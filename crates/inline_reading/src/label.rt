//! What starts the text of a link or an image (CommonMark 6.3 and 6.4).
//!
//!     start ::= '[' | '!' '['
ghost use Rattle.std.specs.Prelude.{◌≡◌, ◌||◌, length};
ghost use Rattle.inline_reading.specs.Shows.{start_view, enter_row};
ghost use Rattle.definition_inline.specs.Scan.{makes_link, may_form, start_bytes};

use inline_rows::{InlineRow, LinkTarget};

/// What is started.
#[derive(Clone, Copy)]
pub enum LabelStart {
    /// A link, by `[` (CommonMark 6.3), or a call of a footnote, by `[^`.
    Link,
    /// An image, by `![` (CommonMark 6.4).
    Image,
}

impl LabelStart {
    /// How many bytes it has.
    pub fn size(self) -> usize
        ensures { result ≡ length (start_bytes (start_view self)) }
    {
        match self {
            LabelStart::Link => 1,
            LabelStart::Image => 2,
        }
    }

    /// Whether it may form something, given whether its text holds a link: no link holds another.
    pub fn may_form(self, holds_link: bool) -> bool
        ensures { result ≡ may_form (start_view self) holds_link }
    {
        match self {
            LabelStart::Link => !holds_link,
            LabelStart::Image => true,
        }
    }

    /// Whether what it forms is a link or a call, or its text holds one.
    pub fn makes_link(self, holds_link: bool) -> bool
        ensures { result ≡ makes_link (start_view self) holds_link }
    {
        match self {
            LabelStart::Link => true,
            LabelStart::Image => holds_link,
        }
    }

    /// The row that starts what it forms.
    pub fn enter_row(self, target: LinkTarget<'_>) -> InlineRow<'_>
        ensures { result ≡ enter_row self target.entry }
    {
        match self {
            LabelStart::Link => InlineRow::EnterLink(target),
            LabelStart::Image => InlineRow::EnterImage(target),
        }
    }
}

/// A label start that is open.
#[derive(Clone, Copy)]
pub struct OpenLabel<'a> {
    /// What it starts.
    pub start: LabelStart,
    /// The place of its row.
    pub row: usize,
    /// How many runs stand before it.
    pub runs: usize,
    /// The content after it.
    pub from: &'a str,
    /// Whether a link stands before it in the text around it.
    pub holds_link: bool,
}

impl OpenLabel<'_> {
    /// Whether a link stands in the text around it, given whether one stands in its own.
    pub fn around_holds_link(self, holds_link: bool) -> bool
        ensures { result ≡ (self.entry.holds_link || holds_link) }
    {
        self.holds_link || holds_link
    }
}
