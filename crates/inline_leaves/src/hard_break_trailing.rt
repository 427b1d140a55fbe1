//! Spaces and tabs at the end of a line or of the content, which may be a hard line break
//! (CommonMark 6.7 and 6.8).
//!
//!     hard_break_trailing ::= ' ' ' '+, before an ending that isn't the last code
//!     line_spaces         ::= (space | tab)+, before an ending or at the end of the content
ghost use Rattle.std.specs.Prelude.{◌≡◌, ◌==◌};
ghost use Rattle.std.specs.List.{list_all};
ghost use Rattle.definition_inline.specs.HardBreak.{is_trailing_break, line_spaces_at};
ghost use Rattle.definition_text.specs.Ascii.{space};
ghost use Rattle.definition_text.specs.Content.{content_codes};
ghost use Rattle.inline_leaves.specs.Leaves.{found_leaf, parts_of, spaces_parts, LeavesRest};

use crate::cut::cut_after;
use crate::leaf::{Leaf, LeafPart};
use crate::line_ending::{ends_here, ends_inner_line};
use crate::space::white_size;
use inline_links::part::from;
use markdown_options::Constructs;
use markdown_options::constants::HARD_BREAK_PREFIX_SIZE_MIN;

/// Spaces and tabs at the end of a line or of the content, which may be a hard line break
/// (CommonMark 6.7 and 6.8).
pub fn line_spaces_at<'a>(on: &Constructs, content: &'a str) -> Option<Leaf<'a>>
    ensures read { found_leaf content.now result ≡ line_spaces_at on.now (content_codes content.now) }
    ensures place { LeavesRest content.now result }
{
    let bytes = content.as_bytes();
    let size = white_size(bytes);
    if size == 0 || !ends_here(from(bytes, size)) {
        return None;
    }
    Some(Leaf {
        part: spaces_part(on, bytes),
        after: cut_after(content, size),
    })
}

/// Whether the spaces and tabs at a line's end are a hard line break (CommonMark 6.7).
fn spaces_part<'a>(on: &Constructs, bytes: &[u8]) -> LeafPart<'a>
    ensures { parts_of result ≡ spaces_parts on.now (content_codes bytes.now) }
{
    if on.hard_break_trailing && is_trailing_break(bytes) {
        LeafPart::TrailingBreak
    } else {
        LeafPart::Spaces
    }
}

/// Two spaces or more and no tab, before a line ending that isn't the last code (CommonMark 6.7).
fn is_trailing_break(bytes: &[u8]) -> bool
    ensures { result ≡ is_trailing_break (content_codes bytes.now) }
{
    let size = white_size(bytes);
    if size < HARD_BREAK_PREFIX_SIZE_MIN {
        return false;
    }
    if !are_spaces(&bytes[..size]) {
        return false;
    }
    ends_inner_line(from(bytes, size))
}

fn are_spaces(bytes: &[u8]) -> bool
    ensures { result ≡ list_all (λ b. b == space) bytes.now }
{
    bytes.iter().all(|b| *b == b' ')
}
