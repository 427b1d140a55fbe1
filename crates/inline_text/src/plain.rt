//! Text at the front of a content (CommonMark 6.9).
//!
//!     text ::= (byte at which nothing starts | (space | tab)+ before something else on its line)*
//!
//! Where literals are on (GFM 6.9), text ends also before `ww` and `ht`, in either case; where marked
//! text is on, before `=`. Text that is printed as it is goes on over an LF with no white space and no
//! line ending beside it, which is a soft line break (CommonMark 6.8).
ghost use Rattle.std.specs.Prelude.{◌≡◌, ◌<◌, ◌≤◌, ◌-◌, ℕ, true, false, length, slice_index};
ghost use Rattle.definition_text.specs.Columns.{is_white};
ghost use Rattle.definition_text.specs.Content.{is_eol};
ghost use Rattle.inline_text.specs.Mark.{IsStopWith};
ghost use Rattle.inline_text.specs.Plain.{goes_on, is_replaced, IsLineSize, IsSoft, IsStart};
ghost use Rattle.inline_text.specs.Fronts.{AreLines, IsTextFront, IsTextOf};
ghost use Rattle.inline_text.specs.Verbatim.{TellsVerbatim};
ghost use Rattle.std.specs.Str.{IsUtf8};

use crate::letters::{StopBytes, next_of_or_letters};
use crate::mark::next_of_or_equals;
use inline_links::part::from;
use markdown_options::Constructs;
use text_bytes::is_space_or_tab;
use text_search::{ByteSet, next_of};

/// The bytes that are no space or tab at which a construct may start (CommonMark 6).
const STARTS: StopBytes = StopBytes {
    set: ByteSet {
        first: [
            b'`', b'!', 3, 4, b'$', 6, b'&', 8, 9, 10, b'*', b'[', b'\\', b']', b'~', b'_',
        ],
        second: [1, 2, 3, 4, 5, 6, 7, 8, 9, 10, b'\n', 12, b'<', b'\r', 15, 0],
    },
    extra: b'`',
};

/// The same bytes, and those of text that are printed as something else; where literals are on, `@`
/// too, which an email address may have.
const STOPS: StopBytes = StopBytes {
    set: ByteSet {
        first: [
            b'`', b'!', b'"', 4, b'$', 6, b'&', 8, 9, 10, b'*', b'[', b'\\', b']', b'~', b'_',
        ],
        second: [
            0, 2, 3, 4, 5, 6, 7, 8, 9, 10, b'\n', 12, b'<', b'\r', b'>', 0,
        ],
    },
    extra: b'@',
};

/// Text at the front of bytes.
#[derive(Clone, Copy)]
pub struct Front {
    /// How many bytes it has.
    pub size: usize,
    /// Whether it is known to be printed as it is, and to hold no `@` where literals are on.
    pub is_verbatim: bool,
}

/// The text at the front of a content.
pub fn front_of(on: &Constructs, rest: &str) -> Front
    ensures front { IsTextOf on.now rest.now result }
    ensures utf8 { IsUtf8 rest.now }
{
    if on.mark {
        return front_with_marks(on.gfm_autolink_literal, rest.as_bytes());
    }
    if on.gfm_autolink_literal {
        front_with_literals(rest.as_bytes())
    } else {
        text_front(false, false, rest.as_bytes())
    }
}

/// The text at the front where literals are on. It is a call, so that where they are off there is
/// less to save.
#[inline(never)]
fn front_with_literals(bytes: &[u8]) -> Front
    ensures { IsTextFront true false bytes.now result }
{
    text_front(true, false, bytes)
}

/// The same where marked text is on.
#[inline(never)]
fn front_with_marks(has_literals: bool, bytes: &[u8]) -> Front
    ensures { IsTextFront has_literals true bytes.now result }
{
    text_front(has_literals, true, bytes)
}

/// The text at the front: a construct starts at none of its bytes, and the byte after them is one at
/// which a construct may start (CommonMark 6 and 6.9). Text that is printed as it is goes on over soft
/// line breaks.
#[inline(always)]
fn text_front(has_literals: bool, has_marks: bool, bytes: &[u8]) -> Front
    ensures { IsTextFront has_literals has_marks bytes.now result }
{
    let stop = next_start(has_literals, has_marks, bytes);
    if stop.size < bytes.len() && !is_ending(bytes[stop.size]) {
        return stop;
    }
    if stop.is_verbatim && is_soft(bytes, stop.size) {
        return lines_front(has_literals, has_marks, bytes, stop.size + 1);
    }
    Front {
        size: without_white(bytes, stop.size),
        is_verbatim: stop.is_verbatim,
    }
}

/// The text at the front, all of it printed as it is, of which so many bytes are known to be lines with
/// their endings. It may end before a byte that is printed as something else.
#[inline(never)]
fn lines_front(has_literals: bool, has_marks: bool, bytes: &[u8], start: usize) -> Front
    requires some { 0 < start }
    requires lines { AreLines has_literals has_marks bytes.now start }
    ensures { IsTextFront has_literals has_marks bytes.now result }
{
    let mut at = start;
    while at < bytes.len() {
        let line = from(bytes, at);
        let stop = first_stop(has_literals, has_marks, line, STOPS);
        if !is_soft(line, stop) {
            return Front {
                size: at + line_size(line, stop),
                is_verbatim: true,
            };
        }
        at += stop + 1;
    }
    Front {
        size: at,
        is_verbatim: true,
    }
}

/// Where a line ends before this place, without the spaces and tabs at its end.
fn line_size(line: &[u8], stop: usize) -> usize
    requires { stop ≤ length line.now }
    ensures { IsLineSize line.now stop result }
{
    if stop < line.len() && !is_ending(line[stop]) {
        stop
    } else {
        without_white(line, stop)
    }
}

/// Whether an LF stands at a place with no white space and no end beside it, nor a line ending after
/// it (CommonMark 6.8).
#[inline(always)]
fn is_soft(bytes: &[u8], at: usize) -> bool
    requires { at ≤ length bytes.now }
    ensures { result ≡ true → IsSoft bytes.now at }
{
    bytes.len() - at > 1
        && bytes[at] == b'\n'
        && (at == 0 || bytes[at - 1] > b' ')
        && bytes[at + 1] > b' '
}

/// What comes before the first byte at which a construct may start, a literal and marked text among
/// them where they are on. A byte that makes text not verbatim is looked for until there is one.
#[inline(always)]
fn next_start(has_literals: bool, has_marks: bool, bytes: &[u8]) -> Front
    ensures start { IsStart has_literals has_marks bytes.now result.size }
    ensures verbatim { TellsVerbatim has_literals bytes.now result }
{
    let stop = first_stop(has_literals, has_marks, bytes, STOPS);
    if stop < bytes.len() && goes_on(has_literals, bytes[stop]) {
        return Front {
            size: stop + first_start(has_literals, has_marks, from(bytes, stop)),
            is_verbatim: false,
        };
    }
    Front {
        size: stop,
        is_verbatim: true,
    }
}

/// The first byte that the set holds, or at which a literal or marked text may start, where they are
/// on, or the extra byte where literals are on.
#[inline(always)]
fn first_stop(has_literals: bool, has_marks: bool, bytes: &[u8], stops: StopBytes) -> usize
    ensures { IsStopWith has_literals has_marks stops bytes.now result }
{
    if has_marks {
        return next_of_or_equals(has_literals, bytes, stops);
    }
    if has_literals {
        next_of_or_letters(bytes, stops)
    } else {
        next_of(bytes, stops.set)
    }
}

/// The first byte at which something may start.
#[inline(always)]
fn first_start(has_literals: bool, has_marks: bool, bytes: &[u8]) -> usize
    ensures { IsStart has_literals has_marks bytes.now result }
{
    first_stop(has_literals, has_marks, bytes, STARTS)
}

/// Whether nothing starts at a byte, and text that holds it isn't verbatim.
fn goes_on(has_literals: bool, byte: u8) -> bool
    ensures { result ≡ goes_on has_literals byte }
{
    is_replaced(byte) || (has_literals && byte == b'@')
}

/// Whether nothing starts at a byte and it is printed as something else.
fn is_replaced(byte: u8) -> bool
    ensures { result ≡ is_replaced byte }
{
    byte == 0 || byte == b'"' || byte == b'>'
}

/// Whether a byte begins a line ending (CommonMark 2.1).
fn is_ending(byte: u8) -> bool
    ensures { result ≡ is_eol byte }
{
    byte == b'\n' || byte == b'\r'
}

/// Where bytes end without the spaces and tabs before this place.
fn without_white(bytes: &[u8], end: usize) -> usize
    requires { end ≤ length bytes.now }
    ensures within { result ≤ end }
    ensures white { (k : ℕ) → result ≤ k → k < end → is_white (slice_index bytes.now k) ≡ true }
    ensures dark { 0 < result → is_white (slice_index bytes.now (result - 1)) ≡ false }
{
    let mut start = end;
    while start > 0 && is_space_or_tab(bytes[start - 1]) {
        start -= 1;
    }
    start
}
