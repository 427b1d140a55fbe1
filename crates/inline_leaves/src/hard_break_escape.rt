//! Hard line breaks by a backslash (CommonMark 6.7).
//!
//!     hard_break_escape ::= '\', before an ending that isn't the last code
ghost use Rattle.std.specs.Prelude.{◌≡◌};
ghost use Rattle.definition_inline.specs.HardBreak.{escaped_break_at};
ghost use Rattle.definition_text.specs.Content.{content_codes};
ghost use Rattle.inline_leaves.specs.Leaves.{found_leaf, LeavesRest};

use crate::cut::cut_after;
use crate::leaf::{Leaf, LeafPart};
use crate::line_ending::ends_inner_line;
use inline_links::part::from;
use markdown_options::Constructs;

/// A backslash before a line ending that isn't the last code (CommonMark 6.7).
pub fn escaped_break_at<'a>(on: &Constructs, content: &'a str) -> Option<Leaf<'a>>
    ensures read { found_leaf content.now result ≡ escaped_break_at on.now (content_codes content.now) }
    ensures place { LeavesRest content.now result }
{
    let bytes = content.as_bytes();
    if bytes.is_empty() || bytes[0] != b'\\' {
        return None;
    }
    if !on.hard_break_escape || !ends_inner_line(from(bytes, 1)) {
        return None;
    }
    Some(Leaf {
        part: LeafPart::EscapedBreak,
        after: cut_after(content, 1),
    })
}
