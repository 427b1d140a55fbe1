//! The attributes of a tag of the list.
ghost use Rattle.std.specs.Prelude.{◌≡◌, ◌↔◌, ◌∷◌, ◌++◌, ℕ, List, IfOk, IsTrue};
ghost use Rattle.html_listed.specs.ListedPage.{attribute_names, is_listed_value, url_names};
ghost use Rattle.html_safe_page.specs.Views.{names_of};
ghost use Rattle.html_listed_page.specs.Tags.{HasAttributes, IsQuoted, are_names};

use crate::text::is_text;
use html_escape::is_permitted;
use html_listed::listing::LISTED_ATTRIBUTES;
use markdown_options::constants::{SAFE_PROTOCOL_HREF, SAFE_PROTOCOL_SRC};
use std::alloc::{AllocError, Allocator};

/// Whether an attribute of this name may have a value, as it is spelled.
fn is_value(name: &str, value: &str) -> bool
    ensures { result ≡ is_listed_value name.now value.now }
{
    match name {
        "href" => is_permitted(&SAFE_PROTOCOL_HREF, value.as_bytes()),
        "src" => is_permitted(&SAFE_PROTOCOL_SRC, value.as_bytes()),
        _ => true,
    }
}

/// The value of an attribute of this name that a text begins with, as it is spelled, and what
/// follows its `"`.
fn split_attribute<'a>(name: &str, text: &'a str) -> Option<(&'a str, &'a str)>
    ensures { IsQuoted name.now text.now result }
{
    let spaced = text.strip_prefix(' ')?;
    let named = spaced.strip_prefix(name)?;
    let quoted = named.strip_prefix("=\"")?;
    quoted.split_once('"')
}

/// What follows an attribute of this name, if a text begins with one whose value is of the list;
/// else the text.
fn after_attribute<'a, A: Allocator>(
    alloc: &A,
    name: &str,
    text: &'a str,
) -> Result<&'a str, AllocError>
    ensures { IfOk result (λ rest. (more : List (List ℕ)) → IsTrue (are_names (name.now ∷ more))
        → HasAttributes (name.now ∷ more) text.now ↔ HasAttributes more rest.now) }
{
    let Some((value, after)) = split_attribute(name, text) else {
        return Ok(text);
    };
    if !is_value(name, value) {
        return Ok(text);
    }
    if is_text(alloc, value)? {
        return Ok(after);
    }
    Ok(text)
}

/// What follows the attributes at the start of a text that have some of these names, in this order.
fn after_attributes<'a, A: Allocator>(
    alloc: &A,
    names: &[&str],
    text: &'a str,
) -> Result<&'a str, AllocError>
    ensures { IfOk result (λ rest. (more : List (List ℕ)) → IsTrue (are_names (names_of names.now ++ more))
        → HasAttributes (names_of names.now ++ more) text.now ↔ HasAttributes more rest.now) }
{
    let mut rest = text;
    for name in names {
        rest = after_attribute(alloc, name, rest)?;
    }
    Ok(rest)
}

/// The attribute with a URL that an element may have.
fn url_names(name: &str) -> &'static [&'static str]
    ensures { names_of result.now ≡ url_names name.now }
{
    match name {
        "a" => &["href"],
        "img" => &["src"],
        _ => &[],
    }
}

/// Whether a text has the attributes of a listed tag of this name.
pub(crate) fn has_attributes<A: Allocator>(
    alloc: &A,
    name: &str,
    text: &str,
) -> Result<bool, AllocError>
    ensures { IfOk result (λ yes. IsTrue yes ↔ HasAttributes (attribute_names name.now) text.now) }
{
    let rest = after_attributes(alloc, url_names(name), text)?;
    let end = after_attributes(alloc, &LISTED_ATTRIBUTES, rest)?;
    Ok(end.is_empty())
}
