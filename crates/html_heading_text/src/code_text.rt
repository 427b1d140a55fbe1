//! The text of code spans and of math (CommonMark 6.1).
//!
//! A line ending is a space. Without one space at each end, where there are both and something
//! between.
ghost use Rattle.std.specs.Prelude.{◌≡◌, ◌==◌, ◌++◌, ◌<◌, IfOk, length, not, string_bytes};
ghost use Rattle.std.specs.List.{list_any, prefix_len};
ghost use Rattle.definition_inline.specs.CodeText.{is_padded, without_padding};
ghost use Rattle.html_heading_text.specs.CodeBytes.{is_in_line, spaces_for_endings};
ghost use Rattle.html_escape.specs.Prints.{Prints};

use inline_leaves::cut::{cut_after, text_before};
use inline_leaves::line_ending::ending_at;
use std::alloc::{AllocError, Allocator};

/// Prints a text with a space for each line ending.
pub fn push_spaced<A: Allocator>(out: &mut String<A>, code: &str) -> Result<(), AllocError>
    ensures { Prints result out.old out.new (spaces_for_endings code.now) }
{
    let mut rest = code;
    while !rest.is_empty() {
        rest = push_spaced_piece(out, rest)?;
    }
    Ok(())
}

/// Prints a line ending as a space, or what stands before the next one, and returns what follows.
fn push_spaced_piece<'a, A: Allocator>(
    out: &mut String<A>,
    code: &'a str,
) -> Result<&'a str, AllocError>
    requires { 0 < length code.now }
    ensures printed { IfOk result (λ rest. string_bytes out.new ++ spaces_for_endings rest.now ≡ string_bytes out.old ++ spaces_for_endings code.now) }
    ensures shorter { IfOk result (λ rest. length rest.now < length code.now) }
{
    if let Some(found) = ending_at(code.as_bytes()) {
        out.push_str(" ")?;
        return Ok(cut_after(code, found.size));
    }
    let size = line_size(code.as_bytes());
    out.push_str(text_before(code, size))?;
    Ok(&code[size..])
}

/// How many bytes stand before the first line ending.
pub fn line_size(bytes: &[u8]) -> usize
    ensures { result ≡ prefix_len is_in_line bytes.now }
{
    bytes.iter().take_while(|b| is_in_line(**b)).count()
}

fn is_in_line(byte: u8) -> bool
    ensures { result ≡ is_in_line byte }
{
    byte != b'\n' && byte != b'\r'
}

/// A text without one space at each end, where there are both and something between.
pub fn without_padding(text: &str) -> &str
    ensures { result.now ≡ without_padding text.now }
{
    if text.len() > 1 && is_padded(text.as_bytes()) {
        &text[1..text.len() - 1]
    } else {
        text
    }
}

/// Whether a space stands at each end, and not only spaces.
fn is_padded(bytes: &[u8]) -> bool
    ensures { result ≡ is_padded bytes.now }
{
    if bytes.is_empty() {
        return false;
    }
    bytes[0] == b' ' && bytes[bytes.len() - 1] == b' ' && has_other(bytes)
}

/// Whether anything but spaces stands in a text.
fn has_other(bytes: &[u8]) -> bool
    ensures { result ≡ list_any (λ b. not (b == 32)) bytes.now }
{
    bytes.iter().any(|b| *b != b' ')
}
