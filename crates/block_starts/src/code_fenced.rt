//! Fenced code (CommonMark 4.5).
//!
//!     start ::= small_indent ('`'{3,} no_backtick* | '~'{3,} any*)
//!     end   ::= small_indent the_same_byte{as_many,} white*
ghost use Rattle.std.specs.Prelude.{◌≡◌, ◌<◌, ◌^◌, length, take};
ghost use Rattle.std.specs.List.{position_or_len};
ghost use Rattle.definition_text.specs.Columns.{is_white, whole};
ghost use Rattle.definition_block.specs.CodeFenced as spec;
ghost use Rattle.block_starts.specs.View.{rest_of};
ghost use Rattle.block_starts.specs.CodeFenced.{fence_view, fence_if, may_close};

use crate::cursor::Cursor;
use crate::indent::is_small;
use markdown_options::Constructs;
use markdown_options::constants::CODE_FENCED_SEQUENCE_SIZE_MIN;
use text_bytes::{is_run, is_space_or_tab, lacks, split_run};
use text_lines::trim;

/// An opening fence.
#[derive(Clone, Copy)]
pub struct Fence<'a> {
    /// A backtick, a tilde or, where it is math, a dollar.
    pub byte: u8,
    /// How many of it there are.
    pub run: usize,
    /// The columns before it.
    pub indent: usize,
    /// The first word after it, or what stands for math.
    pub info: &'a str,
}

/// The fence that opens here.
pub fn fence_start<'a>(on: &Constructs, rest: Cursor<'a>) -> Option<Fence<'a>>
    ensures { fence_if result ≡ spec.fence_start on.now (rest_of rest.entry) }
{
    if on.code_fenced && is_small(on, rest.indent()) {
        fence_of(rest.indent(), rest.bare_text())
    } else {
        None
    }
}

fn fence_of(columns: usize, text: &str) -> Option<Fence<'_>>
    ensures { fence_if result ≡ spec.fence_of columns text.now }
{
    let (backticks, after) = split_run(b'`', text);
    if backticks >= CODE_FENCED_SEQUENCE_SIZE_MIN && lacks(b'`', after.as_bytes()) {
        return Some(fence_by(b'`', backticks, columns, after));
    }
    let (tildes, after) = split_run(b'~', text);
    if tildes < CODE_FENCED_SEQUENCE_SIZE_MIN {
        return None;
    }
    Some(fence_by(b'~', tildes, columns, after))
}

fn fence_by(byte: u8, run: usize, columns: usize, after: &str) -> Fence<'_>
    ensures { fence_view result ≡ spec.fence_by byte run columns after.now }
{
    Fence {
        byte,
        run,
        indent: columns,
        info: first_word(after),
    }
}

/// The first word of a text.
fn first_word(text: &str) -> &str
    ensures { result.now ≡ spec.first_word text.now }
{
    word(trim(text))
}

/// The bytes of a text before its first space or tab.
fn word(text: &str) -> &str
    ensures { result.now ≡ take (position_or_len is_white text.now) text.now }
{
    &text[..word_len(text.as_bytes())]
}

/// How many bytes stand before the first space or tab.
fn word_len(bytes: &[u8]) -> usize
    ensures { result ≡ position_or_len is_white bytes.now }
{
    for (i, b) in bytes.iter().enumerate() {
        if is_space_or_tab(*b) {
            return i;
        }
    }
    bytes.len()
}

/// Whether the line closes the fence.
pub fn is_fence_end(on: &Constructs, fence: &Fence<'_>, rest: Cursor<'_>) -> bool
    ensures { result ≡ spec.is_fence_end on.now (fence_view fence.now) (rest_of rest.entry) }
{
    is_small(on, rest.indent()) && is_run(fence.run, fence.byte, rest.bare_text().as_bytes())
}

/// Whether a whole line closes a fence.
pub fn closes_fence(on: &Constructs, fence: &Fence<'_>, content: &str) -> bool
    requires { length content.now < 2 ^ 61 }
    ensures { result ≡ spec.is_fence_end on.now (fence_view fence.now) (whole content.now) }
{
    may_close(fence.byte, content.as_bytes()) && is_fence_end(on, fence, Cursor::new(content))
}

/// Whether a line is empty or ends in a byte, a space or a tab. No other closes a fence of that byte.
fn may_close(byte: u8, content: &[u8]) -> bool
    ensures { result ≡ may_close byte content.now }
{
    match content {
        [] => true,
        [.., last] => *last == byte || is_space_or_tab(*last),
    }
}

/// A line of the content, which loses up to the fence's indent.
pub fn fence_line<'a>(fence: &Fence<'_>, rest: Cursor<'a>) -> Cursor<'a>
    ensures { rest_of result ≡ spec.fence_line (fence_view fence.now) (rest_of rest.entry) }
{
    rest.outdent(fence.indent)
}
