//! Link destinations (CommonMark 6.3).
//!
//!     destination ::= '<' angle '>' | bare
//!     angle       ::= ('\' ('<' | '>' | '\') | code that isn't '<', '>' or a line ending)*
//!     bare        ::= piece+
//!     piece       ::= '\' ('(' | ')' | '\') | '(' piece* ')' | other
//!
//! A bare destination doesn't begin with `<`, and has no space, no line ending and no control
//! character but NUL.
ghost use Rattle.std.specs.Prelude.{◌≡◌, ◌<◌, ◌≤◌, ◌+◌, ◌^◌, ◌&&◌, ◌==◌, drop, false, length};
ghost use Rattle.std.specs.List.{prefix_len};
ghost use Rattle.definition_text.specs.Content.{content_codes, closed_by, up_to};
ghost use Rattle.definition_inline.specs.Destination.{ends_angle, angle_end, is_control, open_after, is_too_deep, ends_bare, bare_end, if_any, destination_at};
ghost use Rattle.inline_links.specs.Bare.{is_plain};
ghost use Rattle.inline_links.specs.View.{found_part, LeavesShorterRest};

use crate::code::{is_eol, is_space, may_escape, next_code};
use crate::part::{Part, closed_by, from, up_to};
use text_search::{ByteClass, run_of};

pub(crate) const PARENTHESIS: u16 = b'(' as u16;

pub(crate) const CLOSING_PARENTHESIS: u16 = b')' as u16;

const LESS: u16 = b'<' as u16;

const GREATER: u16 = b'>' as u16;

/// The bytes that neither end a bare destination, nor open or close parentheses, nor escape what
/// comes next. The first bit is of the upper half of NUL, the second of that of `(`, the fourth of that of
/// `\`, the fifth of that of DEL, and the third of those of which all bytes are plain.
const PLAIN: ByteClass = ByteClass {
    lower: [
        29, 30, 30, 30, 30, 30, 30, 30, 28, 28, 30, 30, 22, 30, 30, 14,
    ],
    upper: [1, 0, 2, 4, 4, 8, 4, 16, 4, 4, 4, 4, 4, 4, 4, 4],
};

/// A destination; the greatest depth of its parentheses is given, if there is one (CommonMark 6.3).
pub fn destination(content: &[u8], depth: Option<usize>) -> Option<Part<'_>>
    ensures read { found_part result ≡ destination_at depth (content_codes content.now) }
    ensures place { LeavesShorterRest content.now result }
{
    let first = next_code(content, 0)?;
    if first.code == LESS {
        angle(from(content, first.next))
    } else {
        bare(content, depth)
    }
}

/// The text up to the `>` that closes it.
fn angle(content: &[u8]) -> Option<Part<'_>>
    ensures read { found_part result ≡ closed_by (content_codes content.now) (angle_end false (content_codes content.now)) }
    ensures place { LeavesShorterRest content.now result }
{
    let mut escaped = false;
    let mut end = 0;
    while let Some(read) = next_code(content, end) {
        if ends_angle(escaped, read.code) {
            if read.code != GREATER {
                return None;
            }
            return Some(closed_by(content, end, read));
        }
        escaped = may_escape(escaped, read.code);
        end = read.next;
    }
    None
}

/// A line ending, or a `<` or `>` that no backslash escapes.
fn ends_angle(escaped: bool, code: u16) -> bool
    ensures { result ≡ ends_angle escaped code }
{
    is_eol(code) || ((code == LESS || code == GREATER) && !escaped)
}

/// The text without spaces and control characters, whose parentheses are balanced.
fn bare(content: &[u8], depth: Option<usize>) -> Option<Part<'_>>
    ensures read { found_part result ≡ if_any (up_to (content_codes content.now) (bare_end depth false 0 (content_codes content.now))) }
    ensures place { LeavesShorterRest content.now result }
{
    let mut escaped = false;
    let mut opened = 0;
    let mut end = after_plain(content, 0);
    while let Some(read) = next_code(content, end) {
        if ends_bare(escaped, opened, read.code) {
            break;
        }
        opened = open_after(escaped, opened, read.code);
        if is_too_deep(depth, opened) {
            return None;
        }
        end = after_plain(content, read.next);
        escaped = stays(may_escape(escaped, read.code), end - read.next);
    }
    if opened == 0 && end > 0 {
        Some(up_to(content, end))
    } else {
        None
    }
}

/// The place after such bytes.
fn after_plain(content: &[u8], at: usize) -> usize
    requires { at ≤ length content.now }
    ensures end { result ≡ at + prefix_len is_plain (drop at content.now) }
    ensures within { result ≤ length content.now }
{
    at + plain_size(from(content, at))
}

/// How many such bytes come first.
fn plain_size(bytes: &[u8]) -> usize
    ensures size { result ≡ prefix_len is_plain bytes.now }
    ensures within { result ≤ length bytes.now }
{
    run_of(bytes, PLAIN)
}

/// Whether the next byte is escaped after a run of so many of them.
pub(crate) fn stays(escaped: bool, run: usize) -> bool
    ensures { result ≡ (escaped && (run == 0)) }
{
    escaped && run == 0
}

/// A space, a control character, or a `)` that closes nothing.
fn ends_bare(escaped: bool, opened: usize, code: u16) -> bool
    ensures { result ≡ ends_bare escaped opened code }
{
    is_space(code) || is_control(code) || (code == CLOSING_PARENTHESIS && opened == 0 && !escaped)
}

/// An ASCII control character other than NUL.
fn is_control(code: u16) -> bool
    ensures { result ≡ is_control code }
{
    (1 <= code && code <= 31) || code == 127
}

/// How many parentheses are open after a code.
fn open_after(escaped: bool, opened: usize, code: u16) -> usize
    requires { opened + 1 < 2 ^ 64 }
    ensures { result ≡ open_after escaped opened code }
{
    if escaped {
        opened
    } else if code == PARENTHESIS {
        opened + 1
    } else if code == CLOSING_PARENTHESIS {
        opened.saturating_sub(1)
    } else {
        opened
    }
}

/// Whether more parentheses are open than may be.
fn is_too_deep(depth: Option<usize>, opened: usize) -> bool
    ensures { result ≡ is_too_deep depth opened }
{
    match depth {
        None => false,
        Some(depth) => depth < opened,
    }
}
