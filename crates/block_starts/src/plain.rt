//! Plain rests, with which nothing begins but text (CommonMark 4.8).
//!
//!     plain ::= column_of_space{0,3} byte_that_begins_no_block any*, and no '[^' where footnotes are on
ghost use Rattle.std.specs.Prelude.{◌≡◌, ◌<◌, ◌^◌, length};
ghost use Rattle.definition_text.specs.Columns.{whole};
ghost use Rattle.block_starts.specs.Plain.{begins_block, begins_extension, begins_footnote, begins_plain, begins_standard_block, is_plain, is_plain_byte};
ghost use Rattle.block_starts.specs.View.{rest_of};

use crate::cursor::Cursor;
use markdown_options::Constructs;
use markdown_options::constants::CODE_INDENT;
use text_bytes::is_space_or_tab;

/// Whether a rest is plain: an indent of at most three columns, and then a byte that is no white
/// space and with which no block of CommonMark but a paragraph begins, nor an extension that is on.
pub fn is_plain(on: &Constructs, rest: Cursor<'_>) -> bool
    ensures { result ≡ is_plain on.now (rest_of rest.entry) }
{
    rest.indent() < CODE_INDENT && begins_plain(on, rest.bare_text().as_bytes())
}

/// The same of a whole line.
pub fn is_plain_line(on: &Constructs, content: &str) -> bool
    requires { length content.now < 2 ^ 61 }
    ensures { result ≡ is_plain on.now (whole content.now) }
{
    is_plain(on, Cursor::without_breaks(content))
}

fn begins_plain(on: &Constructs, text: &[u8]) -> bool
    ensures { result ≡ begins_plain on.now text.now }
{
    match text {
        [] => false,
        [first, others @ ..] => is_plain_byte(on, *first) && !begins_footnote(on, *first, others),
    }
}

/// Whether a footnote definition may begin with a byte and those after it, where these are on.
fn begins_footnote(on: &Constructs, first: u8, others: &[u8]) -> bool
    ensures { result ≡ begins_footnote on.now first others.now }
{
    first == b'[' && on.gfm_footnote_definition && matches!(others, [b'^', ..])
}

/// Whether a byte is no white space, and none that a block other than a paragraph may begin with.
fn is_plain_byte(on: &Constructs, byte: u8) -> bool
    ensures { result ≡ is_plain_byte on.now byte }
{
    !(is_space_or_tab(byte) || begins_block(on, byte))
}

fn begins_block(on: &Constructs, byte: u8) -> bool
    ensures { result ≡ begins_block on.now byte }
{
    begins_standard_block(byte) || begins_extension(on, byte)
}

/// Whether a block of CommonMark other than a paragraph may begin with a byte.
fn begins_standard_block(byte: u8) -> bool
    ensures { result ≡ begins_standard_block byte }
{
    matches!(
        byte,
        b'#' | b'*' | b'+' | b'-' | b'<' | b'=' | b'>' | b'_' | b'`' | b'~'
    ) || byte.is_ascii_digit()
}

/// Whether math or a row of delimiters may begin with a byte, where these are on.
fn begins_extension(on: &Constructs, byte: u8) -> bool
    ensures { result ≡ begins_extension on.now byte }
{
    match byte {
        b'$' => on.math_flow,
        b':' | b'|' => on.gfm_table,
        _ => false,
    }
}
