//! Link titles (CommonMark 6.3).
//!
//!     title ::= '"' text '"' | "'" text "'" | '(' text ')'
//!     text  ::= ('\' (close | '\') | code that doesn't close)*
//!
//! Between parentheses `(` is escaped too. The text has no blank line.
ghost use Rattle.std.specs.Prelude.{◌≡◌, false};
ghost use Rattle.definition_text.specs.Content.{content_codes, closed_by};
ghost use Rattle.definition_inline.specs.Title.{ends_title, ends_blank_line, title_end, title_close, title_at};
ghost use Rattle.inline_links.specs.View.{found_part, LeavesShorterRest};

use crate::code::{at_line_start, is_eol, may_escape, next_code};
use crate::destination::{CLOSING_PARENTHESIS, PARENTHESIS};
use crate::part::{Part, closed_by, from};

const QUOTE: u16 = b'"' as u16;

const APOSTROPHE: u16 = b'\'' as u16;

/// A title, with its text (CommonMark 6.3).
pub fn title(content: &[u8]) -> Option<Part<'_>>
    ensures read { found_part result ≡ title_at (content_codes content.now) }
    ensures place { LeavesShorterRest content.now result }
{
    let first = next_code(content, 0)?;
    let close = title_close(first.code)?;
    title_text(from(content, first.next), close)
}

/// What closes a title that a code opens.
fn title_close(code: u16) -> Option<u16>
    ensures { result ≡ title_close code }
{
    match code {
        QUOTE | APOSTROPHE => Some(code),
        PARENTHESIS => Some(CLOSING_PARENTHESIS),
        _ => None,
    }
}

/// The text up to the code that closes it.
fn title_text(content: &[u8], close: u16) -> Option<Part<'_>>
    ensures read { found_part result ≡ closed_by (content_codes content.now) (title_end close false false (content_codes content.now)) }
    ensures place { LeavesShorterRest content.now result }
{
    let mut escaped = false;
    let mut start = false;
    let mut end = 0;
    while let Some(read) = next_code(content, end) {
        if ends_title(close, escaped, read.code) {
            if read.code != close {
                return None;
            }
            return Some(closed_by(content, end, read));
        }
        if ends_blank_line(start, read.code) {
            return None;
        }
        escaped = may_escape(escaped, read.code);
        start = at_line_start(start, read.code);
        end = read.next;
    }
    None
}

/// What closes a title, or a `(` between parentheses, where no backslash escapes it.
fn ends_title(close: u16, escaped: bool, code: u16) -> bool
    ensures { result ≡ ends_title close escaped code }
{
    (code == close || (close == CLOSING_PARENTHESIS && code == PARENTHESIS)) && !escaped
}

/// A line ending that ends a blank line.
fn ends_blank_line(start: bool, code: u16) -> bool
    ensures { result ≡ ends_blank_line start code }
{
    start && is_eol(code)
}
