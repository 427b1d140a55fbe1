//! The built-in tables.
ghost use Rattle.definition_inline.specs.BuiltinReferences.{builtin_names};
ghost use Rattle.inline_references.specs.LawfulRows.{builtin_is_lawful};
ghost use Rattle.markdown_tables.specs.Punctuation.{builtin_punctuation};
ghost use Rattle.markdown_tables.specs.PunctuationLaws.{ascii_punctuation, ascii_alphanumeric};

use crate::punctuation::is_unicode_punctuation;
use inline_references::builtin_reference;
use markdown_options::Tables;

/// The built-in tables: the 252 names of HTML 4, 44 names of HTML 5, and Unicode punctuation.
#[derive(Clone, Copy, Debug, PartialEq, Eq)]
pub struct Builtin;

impl Tables for Builtin {
    ghost reference_of = { λ _ name. builtin_names name };

    ghost punctuation_of = { λ _ code. builtin_punctuation code };

    /// Returns the text of a built-in name (CommonMark 2.5).
    fn reference(&self, name: &str) -> Option<&str> {
        builtin_reference(name)
    }

    /// Returns whether the general category of a character is P or S (CommonMark 2.1).
    fn is_punctuation(&self, character: char) -> bool {
        is_unicode_punctuation(character)
    }

    ghost reference_named = { λ _ name text found. (builtin_is_lawful name text found).named };

    ghost reference_nonempty = { λ _ name text found. (builtin_is_lawful name text found).nonempty };

    ghost reference_utf8 = { λ _ name text found. (builtin_is_lawful name text found).utf8 };

    ghost punctuation_ascii = { λ _ code given. ascii_punctuation code given };

    ghost alphanumeric_ascii = { λ _ code given. ascii_alphanumeric code given };
}
