//! Optional white space (CommonMark 4.7 and 6.3).
//!
//!     white  ::= spaces (ending spaces)?
//!     spaces ::= (space | tab)*
ghost use Rattle.std.specs.Prelude.{◌≡◌};
ghost use Rattle.definition_text.specs.Content.{content_codes};
ghost use Rattle.definition_inline.specs.Space.{after_spaces, after_white};
ghost use Rattle.inline_links.specs.Codes.{IsRest};

use crate::code::{is_eol, is_white, next_code};
use crate::part::from;

/// The rest after spaces and tabs (CommonMark 4.7).
pub fn spaces(content: &[u8]) -> &[u8]
    ensures rest { content_codes result.now ≡ after_spaces (content_codes content.now) }
    ensures place { IsRest content.now result.now }
{
    let mut at = 0;
    while let Some(read) = next_code(content, at) {
        if !is_white(read.code) {
            return from(content, at);
        }
        at = read.next;
    }
    from(content, at)
}

/// The rest after spaces and tabs with at most one line ending (CommonMark 4.7 and 6.3).
pub fn white(content: &[u8]) -> &[u8]
    ensures rest { content_codes result.now ≡ after_white (content_codes content.now) }
    ensures place { IsRest content.now result.now }
{
    let rest = spaces(content);
    match next_code(rest, 0) {
        Some(read) if is_eol(read.code) => spaces(from(rest, read.next)),
        _ => rest,
    }
}
