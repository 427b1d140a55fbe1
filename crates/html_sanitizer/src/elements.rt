//! Elements without a name, whose text is raw HTML.
ghost use Rattle.std.specs.Prelude.{◌≡◌, ◌++◌, ◌<◌, [], IfOk, IfSome, OnOk, codes, length, string_bytes, true, unwrap_or};
ghost use Rattle.std.specs.List.{prefix_len, take_while};
ghost use Rattle.definition_text.specs.Bytes.{after_all, begins_with};
ghost use Rattle.definition_text.specs.Lines.{ends_line};
ghost use Rattle.definition_html.specs.PageParts.{after_tag, is_in_tag, is_in_text};
ghost use Rattle.html_safe_page.specs.Reader.{read_text};
ghost use Rattle.html_sanitizer.specs.Elements.{begins_marked, is_letter, read_after, run_at};

use std::alloc::{AllocError, Allocator};
use text_search::{BytePair, next_of};

/// `<`.
const TAG_START: BytePair = BytePair {
    first: b'<',
    second: b'<',
};

/// `>`.
const TAG_END: BytePair = BytePair {
    first: b'>',
    second: b'>',
};

// ---- cuts

/// A text up to the first `<`, and the rest.
pub(crate) fn split_text(text: &str) -> (&str, &str)
    ensures before { result.0.now ≡ take_while is_in_text text.now }
    ensures after { result.1.now ≡ after_all is_in_text text.now }
{
    text.split_at(text_size(text.as_bytes()))
}

fn text_size(bytes: &[u8]) -> usize
    ensures { result ≡ prefix_len is_in_text bytes.now }
{
    next_of(bytes, TAG_START)
}

/// What stands in a tag up to its `>`, and what follows that.
pub(crate) fn split_tag(text: &str) -> (&str, &str)
    ensures inside { result.0.now ≡ take_while is_in_tag text.now }
    ensures after { result.1.now ≡ after_tag text.now }
{
    let (inside, end) = split_inside(text);
    match end.strip_prefix('>') {
        Some(after) => (inside, after),
        None => (inside, ""),
    }
}

/// What stands in a tag, and its `>` with what follows.
pub(crate) fn split_inside(text: &str) -> (&str, &str)
    ensures inside { result.0.now ≡ take_while is_in_tag text.now }
    ensures end { result.1.now ≡ after_all is_in_tag text.now }
{
    text.split_at(inside_size(text.as_bytes()))
}

fn inside_size(bytes: &[u8]) -> usize
    ensures { result ≡ prefix_len is_in_tag bytes.now }
{
    next_of(bytes, TAG_END)
}

/// Line endings, and what follows them.
fn split_lines(text: &str) -> (&str, &str)
    ensures lines { result.0.now ≡ take_while ends_line text.now }
    ensures after { result.1.now ≡ after_all ends_line text.now }
{
    text.split_at(lines_size(text.as_bytes()))
}

fn lines_size(bytes: &[u8]) -> usize
    ensures { result ≡ prefix_len ends_line bytes.now }
{
    bytes
        .iter()
        .take_while(|b| **b == b'\n' || **b == b'\r')
        .count()
}

/// Letters that stand for themselves, and what follows them.
fn split_letters(text: &str) -> (&str, &str)
    ensures letters { result.0.now ≡ take_while is_letter text.now }
    ensures after { result.1.now ≡ after_all is_letter text.now }
{
    text.split_at(letters_size(text.as_bytes()))
}

fn letters_size(bytes: &[u8]) -> usize
    ensures { result ≡ prefix_len is_letter bytes.now }
{
    bytes.iter().take_while(|b| is_letter(**b)).count()
}

fn is_letter(byte: u8) -> bool
    ensures { result ≡ is_letter byte }
{
    !(byte == b'&' || byte == b'"' || byte == b'<' || byte == b'>')
}

// ---- elements

/// Appends the text of the elements without a name that a page begins with, and the line endings
/// between them. Returns what follows.
pub(crate) fn push_elements<'a, A: Allocator>(
    out: &mut String<A>,
    page: &'a str,
) -> Result<&'a str, AllocError>
    requires { begins_with (codes "<>") page.now ≡ true }
    ensures text { OnOk result (string_bytes out.new ≡ string_bytes out.old ++ (let run = run_at page.now in run.text)) }
    ensures rest { IfOk result (λ rest. rest.now ≡ (let run = run_at page.now in run.rest)) }
    ensures shorter { IfOk result (λ rest. length rest.now < length page.now) }
{
    let mut rest = page;
    while let Some(inside) = rest.strip_prefix("<>") {
        let (text, end) = split_text(inside);
        let (_, after) = split_tag(end);
        out.push_str(text)?;
        let (lines, next) = split_lines(after);
        if !next.as_bytes().starts_with(b"<>") {
            return Ok(after);
        }
        out.push_str(lines)?;
        rest = next;
    }
    Ok(rest)
}

// ---- their text

/// Appends to nothing the text that letters and references of a page stand for; nothing if there
/// are other bytes.
pub(crate) fn push_read<A: Allocator>(out: &mut String<A>, text: &str) -> Result<(), AllocError>
    requires { string_bytes out.old ≡ [] }
    ensures { OnOk result (string_bytes out.new ≡ unwrap_or (read_text text.now) []) }
{
    let mut rest = text;
    while !rest.is_empty() {
        let (letters, marked) = split_letters(rest);
        out.push_str(letters)?;
        if marked.is_empty() {
            return Ok(());
        }
        let Some((letter, after)) = split_reference(marked) else {
            out.clear();
            return Ok(());
        };
        out.push_str(letter)?;
        rest = after;
    }
    Ok(())
}

/// The letter that the reference at the start of a text stands for, and what follows it.
fn split_reference(text: &str) -> Option<(&'static str, &str)>
    requires { begins_marked text.now ≡ true }
    ensures read { read_after result ≡ read_text text.now }
    ensures shorter { IfSome result (λ p. length p.1.now < length text.now) }
{
    if let Some(rest) = text.strip_prefix("&amp;") {
        return Some(("&", rest));
    }
    if let Some(rest) = text.strip_prefix("&quot;") {
        return Some(("\"", rest));
    }
    if let Some(rest) = text.strip_prefix("&lt;") {
        return Some(("<", rest));
    }
    match text.strip_prefix("&gt;") {
        Some(rest) => Some((">", rest)),
        None => None,
    }
}
