//! What stands after the `www.` or the protocol of a literal (GFM 6.9).
//!
//!     name ::= byte+ up to white space, '<', a ']' that may end a label, or nothing, without its tail
//!     tail ::= (trailing byte | '&' (letter | digit)+ ';' | ')' while there are more of them than '(')*
ghost use Rattle.std.specs.Prelude.{◌≡◌, ◌<◌, ◌≤◌, ◌==◌, ◌&&◌, ◌-◌, true, false, length, reverse, slice_index, take, MatchOption};
ghost use Rattle.std.specs.List.{suffix_len};
ghost use Rattle.definition_text.specs.Ascii.{left_parenthesis, right_parenthesis};
ghost use Rattle.definition_text.specs.Bytes.{is_letter_or_digit};
ghost use Rattle.definition_text.specs.Content.{content_codes};
ghost use Rattle.definition_inline.specs.GfmAutolinkLiteral.{count_of, cut_more, follows_label, ends_literal, is_trailing};
ghost use Rattle.definition_inline.specs.GfmAutolinkLiteral.{literal_name, literal_run, has_low_line, without_tail};
ghost use Rattle.inline_leaves.specs.Leaves.{IsPlain};
ghost use Rattle.inline_literals.specs.Literals.{is_in_reference, is_kept, HasLowLineAt};

use inline_links::part::from;
use text_bytes::is_space;

/// How many bytes of a name come first (GFM 6.9).
pub(crate) fn name_size(after: &[u8]) -> usize
    ensures name { take result after.now ≡ literal_name (content_codes after.now) }
    ensures plain { IsPlain after.now result }
    ensures next { result < length after.now → slice_index after.now result < 128 }
{
    let size = run_size(after);
    without_tail(&after[..size])
}

/// How many bytes come before what ends a literal, its tail among them (GFM 6.9).
fn run_size(text: &[u8]) -> usize
    ensures run { take result text.now ≡ literal_run (content_codes text.now) }
    ensures plain { IsPlain text.now result }
    ensures next { result < length text.now → slice_index text.now result < 128 }
{
    for (i, b) in text.iter().enumerate() {
        if ends_literal(*b, from(text, i + 1)) {
            return i;
        }
    }
    text.len()
}

/// Whether a byte before these ends a literal: white space, `<`, or a `]` that may end a label (GFM 6.9).
fn ends_literal(byte: u8, after: &[u8]) -> bool
    ensures { result ≡ ends_literal byte (content_codes after.now) }
{
    is_space(byte) || byte == b'<' || (byte == b']' && ends_label(after))
}

/// Whether nothing, white space, `(` or `[` comes first.
fn ends_label(text: &[u8]) -> bool
    ensures { result ≡ follows_label (content_codes text.now) }
{
    text.is_empty() || is_space(text[0]) || text[0] == b'(' || text[0] == b'['
}

/// A byte that no literal ends with (GFM 6.9).
fn is_trailing(byte: u8) -> bool
    ensures { result ≡ is_trailing byte }
{
    b"!\"'*,.:;?_~".contains(&byte)
}

/// How many of this byte a text has.
fn count_of(byte: u8, text: &[u8]) -> usize
    ensures count { result ≡ count_of byte (reverse text.now) }
    ensures within { result ≤ length text.now }
{
    let mut count = 0;
    for b in text {
        if *b == byte {
            count += 1;
        }
    }
    count
}

/// How many bytes a text has without its tail (GFM 6.9).
fn without_tail(text: &[u8]) -> usize
    ensures size { reverse (take result text.now) ≡ without_tail 0 (reverse text.now) }
    ensures within { result ≤ length text.now }
    ensures next { result < length text.now → slice_index text.now result < 128 }
{
    let opened = count_of(b'(', text);
    let mut closed = count_of(b')', text);
    let mut end = text.len();
    while end > 0 {
        let last = text[end - 1];
        if is_trailing(last) {
            end -= 1 + cut_more(last, &text[..end - 1]);
        } else if last == b')' && closed > opened {
            closed -= 1;
            end -= 1;
        } else {
            return end;
        }
    }
    0
}

/// How many bytes are cut with this last one of a text besides: before a `;` what looks like a character reference (GFM 6.9).
fn cut_more(byte: u8, before: &[u8]) -> usize
    ensures size { result ≡ cut_more byte (reverse before.now) }
    ensures within { result ≤ length before.now }
    ensures first { 0 < result → slice_index before.now (length before.now - result) < 128 }
{
    if byte != b';' {
        return 0;
    }
    let size = letters_and_digits(before);
    if size > 0 && size < before.len() && before[before.len() - size - 1] == b'&' {
        size + 1
    } else {
        0
    }
}

/// How many letters and digits come last.
fn letters_and_digits(text: &[u8]) -> usize
    ensures size { result ≡ suffix_len is_letter_or_digit text.now }
    ensures within { result ≤ length text.now }
{
    let mut start = text.len();
    while start > 0 && text[start - 1].is_ascii_alphanumeric() {
        start -= 1;
    }
    text.len() - start
}

/// Whether a name has more than so many bytes, as far as that can be told by the first byte after
/// them that is never cut: where nothing else says so, what comes next isn't read to the name's end.
pub(crate) fn goes_beyond(after: &[u8], size: usize) -> bool
    ensures { result ≡ true → size < length (literal_name (content_codes after.now)) }
{
    for (i, b) in after.iter().enumerate() {
        let next = from(after, i + 1);
        if ends_literal(*b, next) {
            return false;
        }
        if i >= size && is_kept(*b, next) {
            return true;
        }
    }
    false
}

/// Whether a byte before these is never cut from a name's end (GFM 6.9).
fn is_kept(byte: u8, after: &[u8]) -> bool
    ensures { result ≡ is_kept byte after.now }
{
    !is_trailing(byte) && byte != b')' && !is_in_reference(after)
}

/// Whether a letter, a digit or `;` comes first.
fn is_in_reference(after: &[u8]) -> bool
    ensures { result ≡ is_in_reference after.now }
{
    !after.is_empty() && (after[0].is_ascii_alphanumeric() || after[0] == b';')
}

/// Whether a text has no parenthesis.
pub(crate) fn has_no_parenthesis(text: &[u8]) -> bool
    ensures { result ≡ ((count_of left_parenthesis (reverse text.now) == 0) && (count_of right_parenthesis (reverse text.now) == 0)) }
{
    count_of(b'(', text) == 0 && count_of(b')', text) == 0
}

/// Where the last `_` stands in the last two parts of a domain, if one does (GFM 6.9).
pub(crate) fn last_low_line(domain: &[u8]) -> Option<usize>
    ensures { MatchOption result (has_low_line domain.now ≡ false) (HasLowLineAt domain.now) }
{
    let mut parts: usize = 2;
    let mut end = domain.len();
    while end > 0 && parts > 0 {
        end -= 1;
        match domain[end] {
            b'_' => return Some(end),
            b'.' => parts -= 1,
            _ => {}
        }
    }
    None
}
