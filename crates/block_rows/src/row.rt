//! What the block parser hands to the printer.
ghost use Rattle.std.specs.Prelude.{◌≡◌, ◌<◌, ◌^◌};
ghost use Rattle.block_rows.specs.Rows.{row_size};

use markdown_options::LineEnding;

/// A block, the start or end of a container, or the end of a line, in the order of the text.
///
/// The lines of the blocks stand in a list beside the rows: each block takes its lines from the
/// front of what the rows before it left.
#[derive(Clone, Copy, Debug, PartialEq, Eq)]
pub enum Row {
    /// A paragraph of this many lines, at least one (CommonMark 4.8).
    Paragraph(usize),
    /// A paragraph of whole lines that follow each other in the text. Its one line is the text of them,
    /// with their endings.
    WholeParagraph,
    /// An ATX heading of a rank, from 1 to 6. Its one line is its content (CommonMark 4.2).
    Heading(u8),
    /// A setext heading of a rank, 1 or 2, and of this many lines, at least one (CommonMark 4.3).
    SetextHeading { rank: u8, count: usize },
    /// A thematic break (CommonMark 4.1).
    Break,
    /// Indented code of this many lines, at least one (CommonMark 4.4).
    IndentedCode(usize),
    /// Fenced code of this many lines, with its info as one more line before them (CommonMark 4.5).
    FencedCode(usize),
    /// Fenced code that no fence closes, of this many lines, with its info as one more line before them
    /// (CommonMark 4.5).
    UnclosedCode(usize),
    /// Fenced code, closed by a fence, of whole lines that follow each other in the text, if it has any.
    /// Its two lines are its info and the text of them, with their endings.
    WholeCode,
    /// An HTML block of this many lines, at least one (CommonMark 4.6).
    Html(usize),
    /// A table of this many lines, at least two: its head, its row of delimiters, and the rows of its body
    /// (GFM 4.10).
    Table(usize),
    /// A link reference definition of this many lines, at least one. Its label, destination and title are
    /// read from them a second time (CommonMark 4.7).
    Definition(usize),
    /// A block quote starts (CommonMark 5.1).
    EnterQuote,
    /// A list item starts, with the byte of its marker and its number (CommonMark 5.2).
    EnterItem { marker: u8, number: Option<u32> },
    /// A footnote definition starts. Its one line is its label (in neither standard).
    EnterFootnote,
    /// The innermost container ends.
    Exit,
    /// The ending of a block's last line. The last line of a text may lack one.
    Ending(Option<LineEnding>),
    /// The ending of a blank line (CommonMark 4.9).
    Blank(Option<LineEnding>),
}

impl Row {
    /// How many lines a row takes from the list beside the rows.
    pub fn size(self) -> usize
        requires { row_size self < 2 ^ 64 }
        ensures { result ≡ row_size self }
    {
        match self {
            Row::Paragraph(count)
            | Row::SetextHeading { count, .. }
            | Row::IndentedCode(count)
            | Row::Html(count)
            | Row::Table(count)
            | Row::Definition(count) => count,
            Row::Heading(_) | Row::WholeParagraph | Row::EnterFootnote => 1,
            Row::FencedCode(count) | Row::UnclosedCode(count) => 1 + count,
            Row::WholeCode => 2,
            Row::Break
            | Row::EnterQuote
            | Row::EnterItem { .. }
            | Row::Exit
            | Row::Ending(_)
            | Row::Blank(_) => 0,
        }
    }
}
