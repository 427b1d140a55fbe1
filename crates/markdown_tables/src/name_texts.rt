//! A map from names to their texts.
ghost use Rattle.std.specs.Prelude.{◌≡◌, ◌<◌, ℕ, List, IfOk, OnOk, IsTrue, length, string_bytes};
ghost use Rattle.definition_inline.specs.ReferenceRows.{is_name};
ghost use Rattle.markdown_tables.specs.NameTexts.{AreLawful, names_with, text_of};
ghost use Rattle.markdown_tables.specs.RowParts.{characters_text};

use crate::row::Characters;
use std::alloc::{AllocError, Allocator};
use std::collections::BTreeMap;

/// The text of one or two characters.
pub(crate) fn text_of<A: Allocator>(
    alloc: A,
    characters: Characters,
) -> Result<String<A>, AllocError>
    ensures { IfOk result (λ text. string_bytes text ≡ characters_text characters) }
{
    let mut text = String::new(alloc);
    text.push(characters.first)?;
    if let Some(second) = characters.second {
        text.push(second)?;
    }
    Ok(text)
}

/// Puts a name with its text into a map.
pub(crate) fn put<A: Allocator + Clone>(
    texts: &mut BTreeMap<String<A>, String<A>, A>,
    name: String<A>,
    text: String<A>,
) -> Result<(), AllocError>
    requires lawful { AreLawful texts.old }
    requires named { IsTrue (is_name (string_bytes name)) }
    requires nonempty { 0 < length (string_bytes text) }
    ensures put { OnOk result ((other : List ℕ) → text_of texts.new other ≡ names_with (string_bytes name) (string_bytes text) (text_of texts.old) other) }
    ensures lawful { AreLawful texts.new }
{
    texts.insert(name, text)?;
    Ok(())
}
