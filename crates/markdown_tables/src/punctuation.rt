//! Unicode punctuation characters.
//!
//!     punctuation ::= a character of the general category P (punctuation) or S (symbol)
ghost use Rattle.std.specs.Prelude.{◌≡◌};
ghost use Rattle.markdown_tables.specs.Punctuation.{builtin_punctuation};

use ucd_category::{GeneralCategory, GeneralCategoryGroup};

/// Returns whether a character is Unicode punctuation (CommonMark 2.1).
pub fn is_unicode_punctuation(character: char) -> bool
    ensures { result ≡ builtin_punctuation character }
{
    if character.is_ascii() {
        character.is_ascii_punctuation()
    } else {
        let category = GeneralCategory::for_char(character);
        GeneralCategoryGroup::Punctuation.contains(category)
            || GeneralCategoryGroup::Symbol.contains(category)
    }
}
