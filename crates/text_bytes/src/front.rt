//! What bytes begin with.
ghost use Rattle.std.specs.Prelude.{◌≡◌, ◌≤◌, length};
ghost use Rattle.std.specs.List.{prefix_len, position_or_len};
ghost use Rattle.definition_text.specs.Bytes.{begins_with_letter};
ghost use Rattle.definition_text.specs.Columns.{indent};
ghost use Rattle.definition_text.specs.Content.{is_space};
ghost use Rattle.definition_text.specs.Runs.{run as run_of};

use crate::bytes::{is_space, is_space_or_tab};

/// How many of a byte come first.
pub fn run(byte: u8, bytes: &[u8]) -> usize
    ensures size { result ≡ run_of byte bytes.now }
    ensures within { result ≤ length bytes.now }
{
    for (i, b) in bytes.iter().enumerate() {
        if *b != byte {
            return i;
        }
    }
    bytes.len()
}

/// How many spaces and tabs come first.
pub fn white_size(bytes: &[u8]) -> usize
    ensures size { result ≡ indent bytes.now }
    ensures within { result ≤ length bytes.now }
{
    bytes
        .iter()
        .position(|b| !is_space_or_tab(*b))
        .unwrap_or(bytes.len())
}

/// How many spaces, tabs and line endings come first.
pub fn space_size(bytes: &[u8]) -> usize
    ensures size { result ≡ prefix_len is_space bytes.now }
    ensures within { result ≤ length bytes.now }
{
    bytes
        .iter()
        .position(|b| !is_space(*b))
        .unwrap_or(bytes.len())
}

/// How many bytes come before the first space, tab or line ending.
pub fn word_size(bytes: &[u8]) -> usize
    ensures size { result ≡ position_or_len is_space bytes.now }
    ensures within { result ≤ length bytes.now }
{
    bytes
        .iter()
        .position(|b| is_space(*b))
        .unwrap_or(bytes.len())
}

/// Whether a letter comes first.
pub fn begins_with_letter(bytes: &[u8]) -> bool
    ensures { result ≡ begins_with_letter bytes.now }
{
    match bytes {
        [] => false,
        [b, ..] => b.is_ascii_alphabetic(),
    }
}
