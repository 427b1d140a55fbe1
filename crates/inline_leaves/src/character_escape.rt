//! Backslash escapes (CommonMark 2.4).
//!
//!     escape ::= '\' punctuation
ghost use Rattle.std.specs.Prelude.{◌≡◌, IfSome};
ghost use Rattle.definition_inline.specs.CharacterEscape.{escape_at};
ghost use Rattle.definition_text.specs.Content.{content_codes};
ghost use Rattle.inline_leaves.specs.Leaves.{found_leaf, escape_leaf, IsEscape, LeavesRest};

use crate::cut::{cut_after, text_between};
use crate::leaf::{Leaf, LeafPart};
use markdown_options::Constructs;

/// A backslash before ASCII punctuation (CommonMark 2.4).
pub fn escape_at<'a>(on: &Constructs, content: &'a str) -> Option<Leaf<'a>>
    ensures read { found_leaf content.now result ≡ escape_at on.now (content_codes content.now) }
    ensures place { LeavesRest content.now result }
{
    let _byte = escaped_byte(on, content.as_bytes())?;
    Some(Leaf {
        part: LeafPart::Escape(text_between(content, 1, 2)),
        after: cut_after(content, 2),
    })
}

/// The punctuation after the backslash that bytes begin with.
fn escaped_byte(on: &Constructs, bytes: &[u8]) -> Option<u8>
    ensures read { escape_leaf result ≡ escape_at on.now bytes.now }
    ensures place { IfSome result (λ byte. IsEscape bytes.now byte) }
{
    if bytes.len() < 2 || !on.character_escape || bytes[0] != b'\\' {
        return None;
    }
    let byte = bytes[1];
    if byte.is_ascii_punctuation() {
        Some(byte)
    } else {
        None
    }
}
