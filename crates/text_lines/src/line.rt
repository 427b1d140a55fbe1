//! Lines and their endings (CommonMark 2.1).
//!
//!     line   ::= content ending?
//!     ending ::= CR LF | CR | LF
ghost use Rattle.std.specs.Prelude.{◌≡◌, ◌<◌, ◌≤◌, ◌+◌, ◌∷◌, length, drop, take};
ghost use Rattle.std.specs.List.{position_or_len};
ghost use Rattle.definition_text.specs.Lines.{ends_line, lines, first_line, text_line};
ghost use Rattle.text_lines.specs.Endings.{BeginsWithEnding};

use markdown_options::LineEnding;
use text_search::{BytePair, next_far};

/// The bytes that begin an ending: LF and CR.
const ENDS: BytePair = BytePair {
    first: b'\n',
    second: b'\r',
};

/// Returns the content of the first line, its ending, and the text after it. The first line of the
/// empty text is empty.
#[inline(always)]
pub fn next_line(text: &str) -> (&str, Option<LineEnding>, &str)
    ensures first { text_line result.0.now result.1 ≡ first_line text.now }
    ensures shorter { length result.0.now + length result.2.now ≤ length text.now }
    ensures rest { 0 < length text.now → lines text.now ≡ text_line result.0.now result.1 ∷ lines result.2.now }
{
    let (content, after) = split_content(text);
    let (ending, rest) = split_ending(after);
    (content, ending, rest)
}

/// The bytes before the first CR or LF, and what follows them.
fn split_content(text: &str) -> (&str, &str)
    ensures content { result.0.now ≡ take (position_or_len ends_line text.now) text.now }
    ensures after { result.1.now ≡ drop (position_or_len ends_line text.now) text.now }
{
    let end = content_len(text.as_bytes());
    text.split_at(end)
}

/// How many bytes are before the first CR or LF.
fn content_len(bytes: &[u8]) -> usize
    ensures { result ≡ position_or_len ends_line bytes.now }
{
    next_far(bytes, ENDS)
}

/// The ending that a text begins with, and what follows it.
#[inline(always)]
fn split_ending(text: &str) -> (Option<LineEnding>, &str)
    ensures { BeginsWithEnding text.now result.0 result.1.now }
{
    if let Some(rest) = text.strip_prefix('\n') {
        return (Some(LineEnding::LineFeed), rest);
    }
    match text.strip_prefix('\r') {
        None => (None, text),
        Some(rest) => after_return(rest),
    }
}

/// The ending that begins with a CR, and what follows it.
fn after_return(text: &str) -> (Option<LineEnding>, &str)
    ensures { BeginsWithEnding (13 ∷ text.now) result.0 result.1.now }
{
    match text.strip_prefix('\n') {
        None => (Some(LineEnding::CarriageReturn), text),
        Some(rest) => (Some(LineEnding::CarriageReturnLineFeed), rest),
    }
}
