//! Character references (CommonMark 2.5).
//!
//!     reference ::= '&' name ';' | '&#' digit{1,7} ';' | '&#' ('x' | 'X') hexadecimal{1,6} ';'
//!     name      ::= letter_or_digit{1,31}
//!
//! `inline_references` finds them. Which names there are, tables say.
ghost use Rattle.std.specs.Prelude.{◌≡◌};
ghost use Rattle.std.specs.Option.{option_map};
ghost use Rattle.definition_inline.specs.CharacterReference.{reference_at};
ghost use Rattle.definition_text.specs.Content.{content_codes};
ghost use Rattle.inline_references.specs.Markers.{value_text};
ghost use Rattle.inline_leaves.specs.Leaves.{found_leaf, character_parts, parts_of, LeavesRest};

use crate::leaf::{Leaf, LeafPart};
use inline_references::character_reference;
use markdown_options::{Constructs, Tables};

/// A character reference, whose name is known (CommonMark 2.5).
pub fn reference_at<'a, T: Tables>(
    on: &Constructs,
    tables: &'a T,
    content: &'a str,
) -> Option<Leaf<'a>>
    ensures read { found_leaf content.now result ≡ reference_at on.now (T.reference_of tables.now) (content_codes content.now) }
    ensures place { LeavesRest content.now result }
{
    if !on.character_reference {
        return None;
    }
    let found = character_reference(content.strip_prefix('&')?)?;
    let part = value_part(found.marker, found.value, tables)?;
    Some(Leaf {
        part,
        after: found.rest,
    })
}

/// The character that a name or digits with this marker stand for, if it is known.
fn value_part<'a, T: Tables>(marker: u8, value: &'a str, tables: &'a T) -> Option<LeafPart<'a>>
    ensures { option_map parts_of result ≡ option_map character_parts (value_text (T.reference_of tables.now) marker value.now) }
{
    match marker {
        b'x' => Some(LeafPart::Number {
            radix: 16,
            digits: value,
        }),
        b'#' => Some(LeafPart::Number {
            radix: 10,
            digits: value,
        }),
        _ => Some(LeafPart::Character(tables.reference(value)?)),
    }
}
