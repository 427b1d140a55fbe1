//! Frontmatter (in neither standard).
//!
//!     frontmatter ::= fence line* fence, the first lines of a text, with the same byte in both fences
//!     fence       ::= ('-'{3} | '+'{3}) white*
ghost use Rattle.std.specs.Prelude.{◌≡◌, ◌≤◌, IfSome, List, None, Some, length};
ghost use Rattle.definition_text.specs.Lines.{TextLine, lines};
ghost use Rattle.definition_block.specs.Frontmatter as spec;
ghost use Rattle.definition_block.specs.Tree.{blocks, children};
ghost use Rattle.block_starts.specs.Frontmatter.{lines_if};

use markdown_options::constants::FRONTMATTER_SEQUENCE_SIZE;
use markdown_options::{Constructs, Kind};
use text_bytes::{is_blank, run};
use text_lines::next_line;

/// The text whose lines are blocks, and the kind of the character before it: frontmatter is left
/// out.
pub fn without_frontmatter<'a>(on: &Constructs, before: Kind, text: &'a str) -> (Kind, &'a str)
    ensures blocks { children on.now result.0 (lines result.1.now) ≡ blocks on.now before text.now }
    ensures shorter { length result.1.now ≤ length text.now }
    ensures all { spec.after_frontmatter on.now (lines text.now) ≡ None → result.1.now ≡ text.now }
    ensures left { (others : List TextLine) → spec.after_frontmatter on.now (lines text.now) ≡ Some others → lines result.1.now ≡ others }
{
    match after_frontmatter(on, text) {
        Some(rest) => (Kind::Whitespace, rest),
        None => (before, text),
    }
}

/// The text after a frontmatter, if it has one.
fn after_frontmatter<'a>(on: &Constructs, text: &'a str) -> Option<&'a str>
    ensures lines { lines_if result ≡ spec.after_frontmatter on.now (lines text.now) }
    ensures shorter { IfSome result (λ rest. length rest.now ≤ length text.now) }
{
    if !on.frontmatter || text.is_empty() {
        return None;
    }
    let (first, _, rest) = next_line(text);
    if is_metadata_fence(b'-', first.as_bytes()) {
        after_metadata_fence(b'-', rest)
    } else if is_metadata_fence(b'+', first.as_bytes()) {
        after_metadata_fence(b'+', rest)
    } else {
        None
    }
}

/// The text after the next fence of a byte, if there is one.
fn after_metadata_fence(byte: u8, text: &str) -> Option<&str>
    ensures lines { lines_if result ≡ spec.after_metadata_fence byte (lines text.now) }
    ensures shorter { IfSome result (λ rest. length rest.now ≤ length text.now) }
{
    let mut rest = text;
    while !rest.is_empty() {
        let (line, _, after) = next_line(rest);
        rest = after;
        if is_metadata_fence(byte, line.as_bytes()) {
            return Some(rest);
        }
    }
    None
}

/// Whether a line is a fence of a byte: exactly three of it, and then only spaces and tabs.
fn is_metadata_fence(byte: u8, line: &[u8]) -> bool
    ensures { result ≡ spec.is_metadata_fence byte line.now }
{
    let count = run(byte, line);
    count == FRONTMATTER_SEQUENCE_SIZE && is_blank(&line[count..])
}
