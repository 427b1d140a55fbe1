//! Line endings in a content (CommonMark 2.1 and 6.8).
//!
//!     ending   ::= CR LF | CR | LF
//!     line_end ::= ending (space | tab)*
ghost use Rattle.std.specs.Prelude.{◌≡◌, MatchOption, false};
ghost use Rattle.definition_text.specs.Content.{content_codes};
ghost use Rattle.definition_inline.specs.Strings.{begins_with_eol};
ghost use Rattle.definition_inline.specs.HardBreak.{line_end_at, ends_inner_line, ends_here};
ghost use Rattle.inline_leaves.specs.Leaves.{found_leaf, ReadsEnding, LeavesRest};

use crate::cut::cut_after;
use crate::leaf::{Leaf, LeafPart};
use crate::space::white_size;
use inline_links::part::from;
use markdown_options::LineEnding;

/// A line ending, and how many bytes it has.
#[derive(Clone, Copy)]
pub struct Ending {
    /// Which it is.
    pub ending: LineEnding,
    /// 1, or 2 of CR LF.
    pub size: usize,
}

/// A line ending, with the spaces and tabs at the start of the next line (CommonMark 6.8).
pub fn line_end_at(content: &str) -> Option<Leaf<'_>>
    ensures read { found_leaf content.now result ≡ line_end_at (content_codes content.now) }
    ensures place { LeavesRest content.now result }
{
    let bytes = content.as_bytes();
    let found = ending_at(bytes)?;
    let end = found.size + white_size(from(bytes, found.size));
    Some(Leaf {
        part: LeafPart::LineEnd(found.ending),
        after: cut_after(content, end),
    })
}

/// The line ending that bytes begin with (CommonMark 2.1).
pub fn ending_at(bytes: &[u8]) -> Option<Ending>
    ensures { MatchOption result (begins_with_eol (content_codes bytes.now) ≡ false) (λ found. ReadsEnding bytes.now found) }
{
    if bytes.is_empty() {
        return None;
    }
    if bytes[0] == b'\n' {
        return Some(Ending {
            ending: LineEnding::LineFeed,
            size: 1,
        });
    }
    if bytes[0] != b'\r' {
        return None;
    }
    if bytes.len() > 1 && bytes[1] == b'\n' {
        return Some(Ending {
            ending: LineEnding::CarriageReturnLineFeed,
            size: 2,
        });
    }
    Some(Ending {
        ending: LineEnding::CarriageReturn,
        size: 1,
    })
}

/// Whether a line ending comes first, and something after it (CommonMark 6.7).
pub fn ends_inner_line(bytes: &[u8]) -> bool
    ensures { result ≡ ends_inner_line (content_codes bytes.now) }
{
    match ending_at(bytes) {
        Some(found) => found.size < bytes.len(),
        None => false,
    }
}

/// Whether a line ending comes first, or nothing is left (CommonMark 6.8).
pub fn ends_here(bytes: &[u8]) -> bool
    ensures { result ≡ ends_here (content_codes bytes.now) }
{
    match ending_at(bytes) {
        Some(_) => true,
        None => bytes.is_empty(),
    }
}
