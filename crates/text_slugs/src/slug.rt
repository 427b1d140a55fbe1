//! The slug of a text (in no standard; as GitHub makes it).
ghost use Rattle.std.specs.Prelude.{◌≡◌, ◌++◌, OnOk, string_bytes, encode_utf8_all};
ghost use Rattle.std.specs.List.{flat_map};
ghost use Rattle.std.specs.Char.Unicode.ToLowercase.{to_lowercase};
ghost use Rattle.definition_page.specs.Slug.{is_kept, slug_char, slug_of};

use std::alloc::{AllocError, Allocator};
use ucd_perl::is_word_character;
use ucd_props::is_join_control;

/// Appends the slug of a text: its characters in lower case, with a hyphen for each space. Letters, marks,
/// decimal numbers, connector punctuation and hyphens are kept, and nothing else. The only error is out of
/// memory.
pub fn push_slug<A: Allocator>(slug: &mut String<A>, text: &str) -> Result<(), AllocError>
    ensures { OnOk result (string_bytes slug.new ≡ string_bytes slug.old ++ slug_of text.now) }
{
    for character in text.chars() {
        push_lowered(slug, character)?;
    }
    Ok(())
}

/// Appends what a character is in a slug.
fn push_lowered<A: Allocator>(slug: &mut String<A>, character: char) -> Result<(), AllocError>
    ensures { OnOk result (string_bytes slug.new ≡ string_bytes slug.old ++ encode_utf8_all (flat_map slug_char (to_lowercase character))) }
{
    for small in character.to_lowercase() {
        push_kept(slug, small)?;
    }
    Ok(())
}

/// Appends what a character in lower case is in a slug.
fn push_kept<A: Allocator>(slug: &mut String<A>, small: char) -> Result<(), AllocError>
    ensures { OnOk result (string_bytes slug.new ≡ string_bytes slug.old ++ encode_utf8_all (slug_char small)) }
{
    if small == ' ' {
        slug.push('-')
    } else if is_kept(small) {
        slug.push(small)
    } else {
        Ok(())
    }
}

/// Whether a character of a text is one of its slug, too.
fn is_kept(character: char) -> bool
    ensures { result ≡ is_kept character }
{
    character == '-' || is_word_character(character) && !is_join_control(character)
}
