//! Link labels (CommonMark 6.3).
//!
//!     label ::= '[' text ']'
//!     text  ::= ('\' ('[' | ']' | '\') | code without brackets)*
//!
//! The text isn't white space alone, and has at most 999 bytes; line endings, and spaces and tabs
//! right after one, aren't counted.
ghost use Rattle.std.specs.Prelude.{◌≡◌, ◌+◌, ◌≤◌, drop, false, length, nat_le};
ghost use Rattle.std.specs.List.{prefix_len};
ghost use Rattle.definition_text.specs.Content.{content_codes, closed_by};
ghost use Rattle.definition_inline.specs.Label.{ends_label, has_text, is_label, label_at, label_end, label_size};
ghost use Rattle.definition_inline.specs.LabelEnd.{has_no_bracket};
ghost use Rattle.inline_links.specs.Unmarked.{is_unmarked};
ghost use Rattle.inline_links.specs.View.{found_part, LeavesShorterRest};

use crate::code::{at_line_start, is_space, may_escape, next_code};
use crate::destination::stays;
use crate::part::{Part, closed_by, from};
use markdown_options::constants::LINK_REFERENCE_SIZE_MAX;
use text_search::{ByteSet, next_of};

const OPEN: u16 = b'[' as u16;

const CLOSE: u16 = b']' as u16;

/// `[`, `]`, `\\` and CR, which may begin a code of two bytes.
const MARKS: ByteSet = ByteSet {
    first: [1, 2, 3, 4, 5, 6, 7, 8, 9, 10, 11, b'[', b'\\', b']', 15, 0],
    second: [1, 2, 3, 4, 5, 6, 7, 8, 9, 10, 11, 12, 13, b'\r', 15, 0],
};

/// A label, with its text between the brackets (CommonMark 6.3).
pub fn label(content: &[u8]) -> Option<Part<'_>>
    ensures read { found_part result ≡ label_at (content_codes content.now) }
    ensures place { LeavesShorterRest content.now result }
{
    let first = next_code(content, 0)?;
    if first.code != OPEN {
        return None;
    }
    let label = label_text(from(content, first.next))?;
    if is_label(label.text) {
        Some(label)
    } else {
        None
    }
}

/// The text up to the bracket that closes it.
fn label_text(content: &[u8]) -> Option<Part<'_>>
    ensures read { found_part result ≡ closed_by (content_codes content.now) (label_end false (content_codes content.now)) }
    ensures place { LeavesShorterRest content.now result }
{
    let mut escaped = false;
    let mut end = after_unmarked(content, 0);
    while let Some(read) = next_code(content, end) {
        if ends_label(escaped, read.code) {
            if read.code != CLOSE {
                return None;
            }
            return Some(closed_by(content, end, read));
        }
        end = after_unmarked(content, read.next);
        escaped = stays(may_escape(escaped, read.code), end - read.next);
    }
    None
}

/// A bracket that no backslash escapes.
fn ends_label(escaped: bool, code: u16) -> bool
    ensures { result ≡ ends_label escaped code }
{
    (code == OPEN || code == CLOSE) && !escaped
}

/// The place after the bytes that are no bracket, no backslash and no CR.
fn after_unmarked(content: &[u8], at: usize) -> usize
    requires { at ≤ length content.now }
    ensures end { result ≡ at + prefix_len is_unmarked (drop at content.now) }
    ensures within { result ≤ length content.now }
{
    at + unmarked_size(from(content, at))
}

/// How many such bytes come first.
fn unmarked_size(bytes: &[u8]) -> usize
    ensures size { result ≡ prefix_len is_unmarked bytes.now }
    ensures within { result ≤ length bytes.now }
{
    next_of(bytes, MARKS)
}

/// Whether there is no bracket but after a backslash that escapes it (CommonMark 6.3).
pub fn has_no_bracket(text: &[u8]) -> bool
    ensures { result ≡ has_no_bracket false (content_codes text.now) }
{
    let mut escaped = false;
    let mut at = after_unmarked(text, 0);
    while let Some(read) = next_code(text, at) {
        if ends_label(escaped, read.code) {
            return false;
        }
        at = after_unmarked(text, read.next);
        escaped = stays(may_escape(escaped, read.code), at - read.next);
    }
    true
}

/// Whether a text may be a label's: not white space alone, and short enough (CommonMark 6.3).
pub fn is_label(text: &[u8]) -> bool
    ensures { result ≡ is_label (content_codes text.now) }
{
    has_text(text) && is_short(text)
}

/// Whether there is something other than spaces, tabs and line endings.
fn has_text(text: &[u8]) -> bool
    ensures { result ≡ has_text (content_codes text.now) }
{
    let mut at = 0;
    while let Some(read) = next_code(text, at) {
        if !is_space(read.code) {
            return true;
        }
        at = read.next;
    }
    false
}

/// Whether a label's text has at most 999 bytes that count.
fn is_short(text: &[u8]) -> bool
    ensures { result ≡ nat_le (label_size false (content_codes text.now)) 999 }
{
    if text.len() <= LINK_REFERENCE_SIZE_MAX {
        return true;
    }
    label_size(text) <= LINK_REFERENCE_SIZE_MAX
}

/// How many bytes of a label's text count: not line endings, nor spaces and tabs right after one.
fn label_size(text: &[u8]) -> usize
    ensures { result ≡ label_size false (content_codes text.now) }
{
    let mut size = 0;
    let mut start = false;
    let mut at = 0;
    while let Some(read) = next_code(text, at) {
        start = at_line_start(start, read.code);
        if !start {
            size += 1;
        }
        at = read.next;
    }
    size
}
