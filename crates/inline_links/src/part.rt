//! What is read of a content.
ghost use Rattle.std.specs.Prelude.{◌≡◌, ◌≤◌, Some, drop, length, take};
ghost use Rattle.definition_text.specs.Content.{content_codes, closed_by, up_to};
ghost use Rattle.inline_links.specs.Codes.{IsCut, ReadsCode};
ghost use Rattle.inline_links.specs.View.{part_of};

use crate::code::Code;

/// What was read of a content, and the rest of it.
#[derive(Clone, Copy)]
pub struct Part<'a> {
    /// The bytes between the delimiters, with their escapes.
    pub text: &'a [u8],
    /// The bytes after the closing delimiter.
    pub rest: &'a [u8],
}

/// A content from a place on.
pub fn from(content: &[u8], at: usize) -> &[u8]
    requires { at ≤ length content.now }
    ensures { result.now ≡ drop at content.now }
{
    &content[at..]
}

/// The text before a place, and the rest from there on.
pub fn up_to(content: &[u8], end: usize) -> Part<'_>
    requires within { end ≤ length content.now }
    requires cut { IsCut content.now end }
    ensures text { result.text.now ≡ take end content.now }
    ensures rest { result.rest.now ≡ drop end content.now }
    ensures codes { Some (part_of result) ≡ up_to (content_codes content.now) (Some (content_codes (drop end content.now))) }
{
    Part {
        text: &content[..end],
        rest: from(content, end),
    }
}

/// The text before the code at a place, and the rest after that code.
pub fn closed_by(content: &[u8], end: usize, close: Code) -> Part<'_>
    requires reads { ReadsCode content.now end close }
    requires cut { IsCut content.now end }
    ensures rest { result.rest.now ≡ drop close.next content.now }
    ensures codes { Some (part_of result) ≡ closed_by (content_codes content.now) (Some (content_codes (drop end content.now))) }
{
    Part {
        text: &content[..end],
        rest: from(content, close.next),
    }
}
