//! Bytes of a text.

/// Whether a byte is a space or a tab.
pub fn is_space(byte: u8) -> bool {
    byte == b' ' || byte == b'\t'
}

/// Bytes without spaces and tabs at their ends.
pub fn trimmed(bytes: &[u8]) -> &[u8] {
    let start = first_spaces(bytes);
    let end = bytes.len().saturating_sub(last_spaces(bytes));
    between(bytes, start, end)
}

/// How many spaces and tabs bytes begin with.
pub(crate) fn first_spaces(bytes: &[u8]) -> usize {
    let mut count: usize = 0;
    for byte in bytes {
        if !is_space(*byte) {
            break;
        }
        count = count.saturating_add(1);
    }
    count
}

/// How many spaces and tabs bytes end with.
pub(crate) fn last_spaces(bytes: &[u8]) -> usize {
    let mut count: usize = 0;
    for byte in bytes.iter().rev() {
        if !is_space(*byte) {
            break;
        }
        count = count.saturating_add(1);
    }
    count
}

/// The bytes from an index to another, or none where there are no such bytes.
pub(crate) fn between(bytes: &[u8], start: usize, end: usize) -> &[u8] {
    if start <= end && end <= bytes.len() {
        &bytes[start..end]
    } else {
        &bytes[..0]
    }
}
