//! Letters of a page and its values.
ghost use Rattle.std.specs.Prelude.{◌≡◌};
ghost use Rattle.std.specs.Option.{is_some, option_copied};
ghost use Rattle.html_safe_page.specs.Reader.{read_text, strip};
ghost use Rattle.html_safe_page.specs.Machine.{after_letters, after_plain, after_reference};

use text_search::{ByteSet, next_of};

/// `"`, `&`, `<` and `>`.
const MARKS: ByteSet = ByteSet {
    first: MARKS_BY_HALF,
    second: MARKS_BY_HALF,
};

/// The mark for each lower half.
const MARKS_BY_HALF: [u8; 16] = [
    1, 2, b'"', 4, 5, 6, b'&', 8, 9, 10, 11, 12, b'<', 14, b'>', 0,
];

/// The bytes after a text, if they begin with it.
pub fn strip<'a>(prefix: &[u8], bytes: &'a [u8]) -> Option<&'a [u8]>
    ensures { option_copied result ≡ strip prefix.now bytes.now }
{
    bytes.strip_prefix(prefix)
}

/// What follows the bytes at the start that aren't `"`, `&`, `<` or `>`.
fn after_plain(bytes: &[u8]) -> &[u8]
    ensures { result.now ≡ after_plain bytes.now }
{
    let (_, rest) = bytes.split_at(next_of(bytes, MARKS));
    rest
}

/// What follows the reference at the start, if there is one.
fn after_reference(bytes: &[u8]) -> Option<&[u8]>
    ensures { option_copied result ≡ after_reference bytes.now }
{
    if !bytes.starts_with(b"&") {
        return None;
    }
    strip(b"&amp;", bytes)
        .or(strip(b"&quot;", bytes))
        .or(strip(b"&lt;", bytes))
        .or(strip(b"&gt;", bytes))
}

/// What follows the letters and references at the start.
pub fn after_letters(bytes: &[u8]) -> &[u8]
    ensures { result.now ≡ after_letters bytes.now }
{
    let mut rest = after_plain(bytes);
    while let Some(next) = after_reference(rest) {
        rest = after_plain(next);
    }
    rest
}

/// Whether bytes are letters and references.
pub fn is_text(bytes: &[u8]) -> bool
    ensures { result ≡ is_some (read_text bytes.now) }
{
    after_letters(bytes).is_empty()
}
