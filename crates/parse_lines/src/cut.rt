//! Where a text is cut. A cut inside of a character or beyond the end gives nothing.
ghost use Rattle.std.specs.Prelude.{◌≡◌, ◌-◌, ◌≤◌, IsTrue, drop, length, slice_index, take};
ghost use Rattle.std.specs.Str.{IsCharBoundary};

/// The text from a place on.
pub fn from(text: &str, start: usize) -> &str
    ensures shorter { length result.now ≤ length text.now - start }
    ensures rest { IsCharBoundary text.now start → result.now ≡ drop start text.now }
{
    if is_between(text, start) {
        &text[start..]
    } else {
        ""
    }
}

/// The text before a place.
pub fn up_to(text: &str, end: usize) -> &str
    ensures front { IsCharBoundary text.now end → result.now ≡ take end text.now }
{
    if is_between(text, end) {
        &text[..end]
    } else {
        ""
    }
}

/// Bytes from a place on.
pub fn bytes_from(bytes: &[u8], start: usize) -> &[u8]
    ensures shorter { length result.now ≤ length bytes.now - start }
    ensures rest { result.now ≡ drop start bytes.now }
{
    if start <= bytes.len() {
        &bytes[start..]
    } else {
        &[]
    }
}

/// Bytes before a place.
pub fn bytes_up_to(bytes: &[u8], end: usize) -> &[u8]
    ensures { result.now ≡ take end bytes.now }
{
    if end <= bytes.len() {
        &bytes[..end]
    } else {
        bytes
    }
}

/// The first byte, or 0 if there is none.
pub fn first(bytes: &[u8]) -> u8
    ensures { result ≡ slice_index bytes.now 0 }
{
    if bytes.is_empty() { 0 } else { bytes[0] }
}

/// Whether a place stands between two characters of a text, or at its end.
fn is_between(text: &str, place: usize) -> bool
    ensures is { IsTrue result → IsCharBoundary text.now place }
    ensures each { IsCharBoundary text.now place → IsTrue result }
{
    if place >= text.len() {
        return place == text.len();
    }
    let byte = text.as_bytes()[place];
    byte < 128 || byte >= 192
}
