//! The resource of a link or an image (CommonMark 6.3).
//!
//!     resource ::= '(' white (destination (white title)? white)? ')'
//!
//! A title is set off by at least one space, tab or line ending.
ghost use Rattle.std.specs.Prelude.{◌≡◌, IfSome};
ghost use Rattle.definition_text.specs.Content.{content_codes};
ghost use Rattle.definition_inline.specs.Resource.{after_destination, opens_title, resource_at, resource_end, resource_inside};
ghost use Rattle.inline_links.specs.Codes.{IsShorterRest, IsRest};
ghost use Rattle.inline_links.specs.View.{part_of, title_codes, found_resource};

use crate::code::next_code;
use crate::definition::begins_with_space;
use crate::destination::destination;
use crate::part::{Part, from};
use crate::space::white;
use crate::title::title;
use markdown_options::constants::RESOURCE_DESTINATION_BALANCE_MAX;

const OPENING: u16 = b'(' as u16;

const CLOSING: u16 = b')' as u16;

const DOUBLE_QUOTE: u16 = b'"' as u16;

const SINGLE_QUOTE: u16 = b'\'' as u16;

/// A resource, and what follows it.
#[derive(Clone, Copy)]
pub struct LinkResource<'a> {
    /// The bytes of the destination, empty where none is written.
    pub destination: &'a [u8],
    /// The bytes of the title, without the quotes or parentheses around it.
    pub title: Option<&'a [u8]>,
    /// The bytes after the closing parenthesis.
    pub rest: &'a [u8],
}

/// A resource that begins here (CommonMark 6.3).
pub fn resource(content: &[u8]) -> Option<LinkResource<'_>>
    ensures read { found_resource result ≡ resource_at (content_codes content.now) }
    ensures place { IfSome result (λ read. IsShorterRest content.now read.rest.now) }
{
    let first = next_code(content, 0)?;
    if first.code != OPENING {
        return None;
    }
    inside(white(from(content, first.next)))
}

/// What stands in a resource after its parenthesis and white space.
fn inside(content: &[u8]) -> Option<LinkResource<'_>>
    ensures read { found_resource result ≡ resource_inside (content_codes content.now) }
    ensures place { IfSome result (λ read. IsRest content.now read.rest.now) }
{
    let first = next_code(content, 0)?;
    if first.code == CLOSING {
        return end(&[], None, content);
    }
    after_destination(destination(content, Some(RESOURCE_DESTINATION_BALANCE_MAX))?)
}

/// A title, if there is one, and the end.
fn after_destination(destination: Part<'_>) -> Option<LinkResource<'_>>
    ensures read { found_resource result ≡ after_destination (part_of destination.entry) }
    ensures place { IfSome result (λ read. IsRest destination.entry.rest.now read.rest.now) }
{
    let next = white(destination.rest);
    if !begins_with_space(destination.rest) || !opens_title(next) {
        return end(destination.text, None, next);
    }
    let title = title(next)?;
    end(destination.text, Some(title.text), white(title.rest))
}

/// The closing parenthesis.
fn end<'a>(
    destination: &'a [u8],
    title: Option<&'a [u8]>,
    content: &'a [u8],
) -> Option<LinkResource<'a>>
    ensures read { found_resource result ≡ resource_end (content_codes destination.now) (title_codes title.entry) (content_codes content.now) }
    ensures place { IfSome result (λ read. IsRest content.now read.rest.now) }
{
    let first = next_code(content, 0)?;
    if first.code != CLOSING {
        return None;
    }
    Some(LinkResource {
        destination,
        title,
        rest: from(content, first.next),
    })
}

/// Whether a title is opened here.
fn opens_title(content: &[u8]) -> bool
    ensures { result ≡ opens_title (content_codes content.now) }
{
    match next_code(content, 0) {
        Some(first) => {
            first.code == DOUBLE_QUOTE || first.code == SINGLE_QUOTE || first.code == OPENING
        }
        None => false,
    }
}
