//! Characters of bytes that need not be UTF-8, at indices that may be anywhere.
ghost use Rattle.std.specs.Prelude.{◌≡◌, ◌≤◌, length, take, drop, slice_get};
ghost use Rattle.std.specs.List.{suffix_len};
ghost use Rattle.std.specs.Str.{chars};
ghost use Rattle.engine_text.specs.Bytes.{code_after, code_before, first_code, goes_on, last_code, last_start, width};

/// At most a number of bytes from an index on.
pub fn part(bytes: &[u8], index: usize, size: usize) -> &[u8]
    ensures { result.now ≡ take size (drop index bytes.now) }
{
    if bytes.len() <= index {
        return &[];
    }
    let rest = &bytes[index..];
    if rest.len() <= size {
        return rest;
    }
    &rest[..size]
}

/// How many bytes a character has that begins with a byte.
pub fn width(byte: u8) -> usize
    ensures { result ≡ width byte }
{
    match byte {
        0..=0xBF => 1,
        0xC0..=0xDF => 2,
        0xE0..=0xEF => 3,
        _ => 4,
    }
}

/// Whether a byte is in a character of several, but not its first.
pub fn goes_on(byte: u8) -> bool
    ensures { result ≡ goes_on byte }
{
    128 <= byte && byte < 192
}

/// The first character of a text.
fn first_of(text: &str) -> Option<char>
    ensures { result ≡ slice_get (chars text.now) 0 }
{
    text.chars().next()
}

/// The first character of bytes, if these are UTF-8.
pub fn first_code(text: &[u8]) -> Option<char>
    ensures { result ≡ first_code text.now }
{
    match str::from_utf8(text) {
        Ok(text) => first_of(text),
        Err(_) => None,
    }
}

/// The character that begins at an index, if one does.
pub fn code_after(bytes: &[u8], index: usize) -> Option<char>
    ensures { result ≡ code_after bytes.now index }
{
    match bytes.get(index) {
        None => None,
        Some(byte) => first_code(part(bytes, index, width(*byte))),
    }
}

/// How many bytes at the end of others are in a character of several, but not its first.
fn tail_size(front: &[u8]) -> usize
    ensures size { result ≡ suffix_len goes_on front.now }
    ensures within { result ≤ length front.now }
{
    let mut end = front.len();
    while end > 0 && goes_on(front[end - 1]) {
        end -= 1;
    }
    front.len() - end
}

/// Where the last character of bytes begins.
fn last_start(front: &[u8]) -> usize
    ensures start { result ≡ last_start front.now }
    ensures within { result ≤ length front.now }
{
    (front.len() - tail_size(front)).saturating_sub(1)
}

/// The character that ends where bytes end, if one does.
fn last_code(front: &[u8]) -> Option<char>
    ensures { result ≡ last_code front.now }
{
    first_code(&front[last_start(front)..])
}

/// The character that ends at an index, if one does.
pub fn code_before(bytes: &[u8], index: usize) -> Option<char>
    ensures { result ≡ code_before bytes.now index }
{
    last_code(part(bytes, 0, index))
}
