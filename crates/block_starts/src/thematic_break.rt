//! Thematic breaks (CommonMark 4.1).
//!
//!     break ::= small_indent marker (white* marker){2,} white*
//!     marker ::= '*' | '-' | '_', the same throughout
ghost use Rattle.std.specs.Prelude.{◌≡◌, ◌==◌, ◌&&◌, ◌||◌};
ghost use Rattle.std.specs.List.{list_all, count_by};
ghost use Rattle.definition_text.specs.Columns.{is_white};
ghost use Rattle.definition_block.specs.ThematicBreak as spec;
ghost use Rattle.block_starts.specs.View.{rest_of};
ghost use Rattle.block_starts.specs.ThematicBreak.{BreaksWithin};

use crate::cursor::Cursor;
use crate::indent::is_small;
use markdown_options::Constructs;
use markdown_options::constants::THEMATIC_BREAK_MARKER_COUNT_MIN;
use text_bytes::is_space_or_tab;

/// Whether the line is a break.
pub fn is_break(on: &Constructs, rest: Cursor<'_>) -> bool
    ensures { result ≡ spec.is_break on.now (rest_of rest.entry) }
{
    on.thematic_break
        && is_small(on, rest.indent())
        && rest.may_break()
        && is_break_text(rest.bare_text().as_bytes())
}

/// Whether a text is a break: the first byte says of which marker.
fn is_break_text(bytes: &[u8]) -> bool
    ensures { result ≡ spec.is_break_text bytes.now }
{
    match bytes {
        [] => false,
        [marker, ..] => is_break_marker(*marker) && is_break_by(*marker, bytes),
    }
}

fn is_break_marker(byte: u8) -> bool
    ensures { result ≡ spec.is_break_marker byte }
{
    byte == b'*' || byte == b'-' || byte == b'_'
}

/// Whether a text holds this byte, at least three times, and otherwise only spaces and tabs.
fn is_break_by(marker: u8, bytes: &[u8]) -> bool
    ensures { result ≡ spec.is_break_by marker bytes.now }
{
    has_only(marker, bytes) && count_of(marker, bytes) >= THEMATIC_BREAK_MARKER_COUNT_MIN
}

fn has_only(marker: u8, bytes: &[u8]) -> bool
    ensures { result ≡ list_all (λ b. (b == marker) || is_white b) bytes.now }
{
    bytes.iter().all(|b| *b == marker || is_space_or_tab(*b))
}

fn count_of(marker: u8, bytes: &[u8]) -> usize
    ensures { result ≡ count_by (λ b. b == marker) bytes.now }
{
    bytes.iter().filter(|b| **b == marker).count()
}

/// How many bytes at the end of a text are spaces, tabs and one marker. No longer end is a break.
pub(crate) fn break_tail(bytes: &[u8]) -> usize
    ensures { BreaksWithin result bytes.now }
{
    let mut marker = b' ';
    for n in 0..bytes.len() {
        let byte = bytes[bytes.len() - 1 - n];
        if !is_space_or_tab(byte) {
            if !goes_with(marker, byte) {
                return n;
            }
            marker = byte;
        }
    }
    bytes.len()
}

/// Whether a byte is the marker, or any marker where that is a space still.
fn goes_with(marker: u8, byte: u8) -> bool
    ensures { result ≡ (spec.is_break_marker byte && ((marker == 32) || (marker == byte))) }
{
    is_break_marker(byte) && (marker == b' ' || marker == byte)
}
