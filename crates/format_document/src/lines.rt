//! The lines of a text.
use std::alloc::{AllocError, Global};

/// Where the lines of a text start.
pub(crate) fn line_starts(alloc: Global, bytes: &[u8]) -> Result<Vec<usize>, AllocError> {
    let mut starts = Vec::new(alloc);
    starts.push(0)?;
    for (index, byte) in bytes.iter().enumerate() {
        let next = index.saturating_add(1);
        if *byte == b'\n' || (*byte == b'\r' && bytes.get(next) != Some(&b'\n')) {
            starts.push(next)?;
        }
    }
    Ok(starts)
}

/// The first line ending of a text, or LF if it has none.
pub(crate) fn first_ending(bytes: &[u8]) -> &'static [u8] {
    for (index, byte) in bytes.iter().enumerate() {
        if *byte == b'\n' {
            return b"\n";
        }
        if *byte == b'\r' {
            return match bytes.get(index.saturating_add(1)) {
                Some(b'\n') => b"\r\n",
                _ => b"\r",
            };
        }
    }
    b"\n"
}
