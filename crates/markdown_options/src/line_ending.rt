//! Line endings.
ghost use Rattle.std.specs.Prelude.{◌≡◌};
ghost use Rattle.markdown_options.specs.LineEndings.{ending_bytes, ReadsEnding};

use std::str::FromStr;
use thiserror::Error;

/// What ends a line (CommonMark 2.1).
#[derive(Clone, Copy, Debug, PartialEq, Eq)]
pub enum LineEnding {
    /// A carriage return and a line feed, which count as one ending.
    CarriageReturnLineFeed,
    /// A carriage return with no line feed after it.
    CarriageReturn,
    /// A line feed.
    LineFeed,
}

/// The error for a text that is none of the three line endings.
#[derive(Clone, Copy, Debug, PartialEq, Eq, Error)]
#[error("Expected CR, LF, or CRLF")]
pub struct LineEndingError;

impl LineEnding {
    /// Returns the text of the ending, of one or two bytes.
    pub fn as_str(self) -> &'static str
        ensures { result.now ≡ ending_bytes self }
    {
        match self {
            LineEnding::CarriageReturnLineFeed => "\r\n",
            LineEnding::CarriageReturn => "\r",
            LineEnding::LineFeed => "\n",
        }
    }
}

/// A line feed.
impl Default for LineEnding {
    ghost use Rattle.markdown_options.specs.declared.line_ending.LineEnding.{LineEnding};

    ghost is_default = { λ e. e ≡ LineEnding.LineFeed };

    fn default() -> LineEnding {
        LineEnding::LineFeed
    }
}

/// Reads the text of a line ending. Any other text is an error.
impl FromStr for LineEnding {
    type Err = LineEndingError;

    ghost from_str_gives = { ReadsEnding };

    fn from_str(text: &str) -> Result<LineEnding, LineEndingError> {
        match text {
            "\r\n" => Ok(LineEnding::CarriageReturnLineFeed),
            "\r" => Ok(LineEnding::CarriageReturn),
            "\n" => Ok(LineEnding::LineFeed),
            _ => Err(LineEndingError),
        }
    }
}
