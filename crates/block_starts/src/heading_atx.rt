//! ATX headings (CommonMark 4.2).
//!
//!     heading ::= small_indent '#'{1,6} (white+ content)? (white+ '#'+)? white*
ghost use Rattle.std.specs.Prelude.{◌≡◌};
ghost use Rattle.definition_block.specs.HeadingAtx as spec;
ghost use Rattle.block_starts.specs.View.{rest_of};
ghost use Rattle.block_starts.specs.HeadingAtx.{atx_if};

use crate::cursor::Cursor;
use crate::indent::is_small;
use markdown_options::Constructs;
use markdown_options::constants::HEADING_ATX_OPENING_FENCE_SIZE_MAX;
use text_bytes::{is_space_or_tab, split_run};
use text_lines::trim;

/// A heading on one line.
#[derive(Clone, Copy)]
pub struct Atx<'a> {
    /// From 1 to 6.
    pub rank: u8,
    /// The text between the runs of `#`, trimmed.
    pub content: &'a str,
}

/// The heading that the line is.
pub fn heading_atx<'a>(on: &Constructs, rest: Cursor<'a>) -> Option<Atx<'a>>
    ensures { atx_if result ≡ spec.heading_atx on.now (rest_of rest.entry) }
{
    if on.heading_atx && is_small(on, rest.indent()) {
        atx_of(rest.bare_text())
    } else {
        None
    }
}

fn atx_of(text: &str) -> Option<Atx<'_>>
    ensures { atx_if result ≡ spec.atx_of text.now }
{
    let (rank, after) = split_run(b'#', text);
    if rank == 0 || rank > HEADING_ATX_OPENING_FENCE_SIZE_MAX || !begins_apart(after.as_bytes()) {
        return None;
    }
    Some(Atx {
        rank: rank as u8,
        content: without_closing(trim(after)),
    })
}

/// Whether a text begins with white space, or is empty.
fn begins_apart(bytes: &[u8]) -> bool
    ensures { result ≡ spec.begins_apart bytes.now }
{
    match bytes {
        [] => true,
        [first, ..] => is_space_or_tab(*first),
    }
}

/// Whether a text ends with white space, or is empty.
fn ends_apart(bytes: &[u8]) -> bool
    ensures { result ≡ spec.ends_apart bytes.now }
{
    match bytes {
        [] => true,
        [.., last] => is_space_or_tab(*last),
    }
}

/// A text without the run of `#` at its end, if that closes a heading.
fn without_closing(text: &str) -> &str
    ensures { result.now ≡ spec.without_closing text.now }
{
    let open = without_run(text);
    if ends_apart(open.as_bytes()) {
        trim(open)
    } else {
        text
    }
}

fn without_run(text: &str) -> &str
    ensures { result.now ≡ spec.without_run text.now }
{
    let bytes = text.as_bytes();
    let mut end = bytes.len();
    while end > 0 && bytes[end - 1] == b'#' {
        end -= 1;
    }
    &text[..end]
}
