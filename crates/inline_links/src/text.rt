//! Labels, resources and definitions of a content that is a text, in texts.
//!
//! What is read of a text is a text: it stands between ASCII characters.
ghost use Rattle.std.specs.Prelude.{◌≡◌, IfSome};
ghost use Rattle.definition_text.specs.Content.{content_codes};
ghost use Rattle.definition_inline.specs.Definition.{definition_at};
ghost use Rattle.definition_inline.specs.Label.{label_at};
ghost use Rattle.definition_inline.specs.Resource.{resource_at};
ghost use Rattle.inline_links.specs.Texts.{IsLater, IsText, found_text_definition, found_text_part, found_text_resource};

use crate::definition::definition;
use crate::label::label;
use crate::resource::resource;

/// What was read of a text, and the rest of it.
#[derive(Clone, Copy)]
pub struct TextPart<'a> {
    /// What stands between the delimiters, with its escapes.
    pub text: &'a str,
    /// What follows the closing delimiter.
    pub rest: &'a str,
}

/// Where a link or an image leads, as it is written (CommonMark 6.3).
#[derive(Clone, Copy)]
pub struct LinkTexts<'a> {
    /// The destination, empty where none is written, without the brackets around it.
    pub destination: &'a str,
    /// The title, without the quotes or parentheses around it.
    pub title: Option<&'a str>,
}

/// A resource of a text, and what follows it.
#[derive(Clone, Copy)]
pub struct TextResource<'a> {
    /// The destination, empty where none is written.
    pub destination: &'a str,
    /// The title, without the quotes or parentheses around it.
    pub title: Option<&'a str>,
    /// What follows the closing parenthesis.
    pub rest: &'a str,
}

/// A definition of a text, and what follows the line ending of its last line.
#[derive(Clone, Copy)]
pub struct TextDefinition<'a> {
    /// The bytes between the brackets.
    pub label: &'a [u8],
    /// The destination, without the `<` and `>` around it.
    pub destination: &'a str,
    /// The title, without the quotes or parentheses around it.
    pub title: Option<&'a str>,
    /// The bytes after the line ending of the definition's last line.
    pub rest: &'a [u8],
}

/// A label that a text begins with (CommonMark 6.3).
pub fn label_of(content: &str) -> Option<TextPart<'_>>
    ensures read { found_text_part result ≡ label_at (content_codes content.now) }
    ensures place { IfSome result (λ read. IsLater content.now read.rest.now) }
{
    let read = label(content.as_bytes())?;
    Some(TextPart {
        text: text_of(read.text),
        rest: text_of(read.rest),
    })
}

/// A resource that a text begins with (CommonMark 6.3).
pub fn resource_of(content: &str) -> Option<TextResource<'_>>
    ensures read { found_text_resource result ≡ resource_at (content_codes content.now) }
    ensures place { IfSome result (λ read. IsLater content.now read.rest.now) }
{
    let read = resource(content.as_bytes())?;
    let title = match read.title {
        Some(title) => Some(text_of(title)),
        None => None,
    };
    Some(TextResource {
        destination: text_of(read.destination),
        title,
        rest: text_of(read.rest),
    })
}

/// A definition that a text begins with, at the start of a line (CommonMark 4.7).
pub fn definition_of(content: &str) -> Option<TextDefinition<'_>>
    ensures { found_text_definition result ≡ definition_at (content_codes content.now) }
{
    let definition = definition(content.as_bytes())?;
    let title = match definition.title {
        Some(title) => Some(text_of(title)),
        None => None,
    };
    Some(TextDefinition {
        label: definition.label,
        destination: text_of(definition.destination),
        title,
        rest: definition.rest,
    })
}

/// Bytes that are known to be a text.
pub fn text_of(bytes: &[u8]) -> &str
    requires { IsText (content_codes bytes.now) }
    ensures { result.now ≡ bytes.now }
{
    unsafe { str::from_utf8_unchecked(bytes) }
}
