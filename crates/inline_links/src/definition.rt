//! Link reference definitions (CommonMark 4.7).
//!
//!     definition ::= spaces label ':' white destination (white title)? spaces end
//!     end        ::= ending | nothing, at the end of the content
//!
//! A title is set off by at least one space, tab or line ending.
ghost use Rattle.std.specs.Prelude.{◌≡◌, IfSome};
ghost use Rattle.std.specs.Option.{option_map};
ghost use Rattle.definition_text.specs.Content.{content_codes};
ghost use Rattle.definition_inline.specs.Space.{begins_with_space};
ghost use Rattle.definition_inline.specs.Definition.{next_line, definition_with_title, definition_without_title, definition_at};
ghost use Rattle.inline_links.specs.Codes.{IsShorterRest, IsRest};
ghost use Rattle.inline_links.specs.View.{part_of, found_definition};

use crate::code::{is_eol, is_space, next_code};
use crate::destination::destination;
use crate::label::label;
use crate::part::{Part, from};
use crate::space::{spaces, white};
use crate::title::title;

const COLON: u16 = b':' as u16;

/// A definition, and what follows the line ending of its last line.
#[derive(Clone, Copy)]
pub struct LinkDefinition<'a> {
    /// The bytes between the brackets.
    pub label: &'a [u8],
    /// The bytes of the destination, without the `<` and `>` around it.
    pub destination: &'a [u8],
    /// The bytes of the title, without the quotes or parentheses around it.
    pub title: Option<&'a [u8]>,
    /// The bytes after the line ending of the definition's last line.
    pub rest: &'a [u8],
}

/// A definition that begins here, at the start of a line (CommonMark 4.7).
pub fn definition(content: &[u8]) -> Option<LinkDefinition<'_>>
    ensures read { found_definition result ≡ definition_at (content_codes content.now) }
    ensures place { IfSome result (λ read. IsShorterRest content.now read.rest.now) }
{
    let label = label(spaces(content))?;
    let colon = next_code(label.rest, 0)?;
    if colon.code != COLON {
        return None;
    }
    let destination = destination(white(from(label.rest, colon.next)), None)?;
    match definition_with_title(label.text, destination) {
        Some(definition) => Some(definition),
        None => definition_without_title(label.text, destination),
    }
}

/// With a title after the destination.
fn definition_with_title<'a>(label: &'a [u8], destination: Part<'a>) -> Option<LinkDefinition<'a>>
    ensures read { found_definition result ≡ definition_with_title (content_codes label.now) (part_of destination.entry) }
    ensures place { IfSome result (λ read. IsRest destination.entry.rest.now read.rest.now) }
{
    if !begins_with_space(destination.rest) {
        return None;
    }
    let title = title(white(destination.rest))?;
    let rest = next_line(title.rest)?;
    Some(LinkDefinition {
        label,
        destination: destination.text,
        title: Some(title.text),
        rest,
    })
}

/// Without a title after the destination.
fn definition_without_title<'a>(
    label: &'a [u8],
    destination: Part<'a>,
) -> Option<LinkDefinition<'a>>
    ensures read { found_definition result ≡ definition_without_title (content_codes label.now) (part_of destination.entry) }
    ensures place { IfSome result (λ read. IsRest destination.entry.rest.now read.rest.now) }
{
    let rest = next_line(destination.rest)?;
    Some(LinkDefinition {
        label,
        destination: destination.text,
        title: None,
        rest,
    })
}

/// Whether a space, a tab or a line ending comes first.
pub(crate) fn begins_with_space(content: &[u8]) -> bool
    ensures { result ≡ begins_with_space (content_codes content.now) }
{
    match next_code(content, 0) {
        Some(first) => is_space(first.code),
        None => false,
    }
}

/// What follows the ending of this line, where only spaces and tabs are left of it.
fn next_line(content: &[u8]) -> Option<&[u8]>
    ensures read { option_map (λ rest. content_codes rest.now) result ≡ next_line (content_codes content.now) }
    ensures place { IfSome result (λ rest. IsRest content.now rest.now) }
{
    let rest = spaces(content);
    match next_code(rest, 0) {
        None => Some(rest),
        Some(ending) if is_eol(ending.code) => Some(from(rest, ending.next)),
        Some(_) => None,
    }
}
