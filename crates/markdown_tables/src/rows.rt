//! Tables with a caller's names before the built-in ones.
ghost use Rattle.markdown_tables.specs.NameTexts.{AreLawful};

use crate::name_texts::{put, text_of};
use crate::punctuation::is_unicode_punctuation;
use crate::row::{NamedCharacters, read_row};
use crate::rows_error::RowsError;
use inline_references::builtin_reference;
use markdown_options::Tables;
use std::alloc::{AllocError, Allocator, Global};
use std::collections::BTreeMap;
use text_lines::{is_blank, next_line};

/// A caller's names with their texts, then the built-in names, and Unicode punctuation.
#[derive(Debug, Drop)]
pub struct Rows<A: Allocator = Global> {
    texts: BTreeMap<String<A>, String<A>, A>,
    ghost lawful: { AreLawful texts },
}

impl<A: Allocator + Clone> Rows<A> {
    ghost use Rattle.std.specs.Prelude.{◌≡◌, ◌⊎◌, ◌++◌, ℕ, List, IfOk, IfErr, OnOk, IsTrue, MatchResult, option_to_list};
    ghost use Rattle.definition_inline.specs.ReferenceRows.{Row, is_name, row_of, text_in, rows};
    ghost use Rattle.markdown_tables.specs.NameTexts.{names_with};
    ghost use Rattle.markdown_tables.specs.Rows.{HasRows, texts_of};
    ghost use Rattle.markdown_tables.specs.RowsFaults.{line_fault, text_fault};
    ghost use Rattle.markdown_tables.specs.RowParts.{characters_text};

    /// Reads the rows of a text, one a line: `name=HEX` or `name=HEX+HEX`, such as `ngE=2267+338`.
    /// A name has 1 to 31 ASCII letters or digits. `HEX` is 1 to 6 hexadecimal digits of a scalar
    /// value.
    ///
    /// Lines of spaces and tabs alone are skipped. Lines end as in any text (CommonMark 2.1). It
    /// fails with the first line that is no row or repeats a name, or out of memory.
    pub fn read(alloc: A, text: &str) -> Result<Rows<A>, RowsError>
        ensures rows { IfOk result (λ read. (name : List ℕ) → texts_of read name ≡ text_in (rows text.now) name) }
        ensures faultless { IfOk result (λ read. text_fault text.now ≡ None) }
        ensures fault { IfErr result (λ e. (e ≡ RowsError.Memory) ⊎ (text_fault text.now ≡ Some e)) }
    {
        let mut read = Rows {
            texts: BTreeMap::new(alloc.clone()?),
        };
        let mut rest = text;
        let mut number = 0;
        while !rest.is_empty() {
            let (line, _, others) = next_line(rest);
            number += 1;
            read.add_line(&alloc, number, line)?;
            rest = others;
        }
        Ok(read)
    }

    /// Adds the row of a line with its number, if it isn't blank.
    fn add_line(&mut self, alloc: &A, number: usize, line: &str) -> Result<(), RowsError>
        ensures { (earlier : List Row) → HasRows self.old earlier → MatchResult result
            (λ _. (line_fault number earlier line.now ≡ None) × HasRows self.new (earlier ++ option_to_list (row_of line.now)))
            (λ e. (e ≡ RowsError.Memory) ⊎ (line_fault number earlier line.now ≡ Some e)) }
    {
        match read_row(line) {
            Some(row) => {
                if self.texts.contains_key(row.name) {
                    return Err(RowsError::Repeated(number));
                }
                self.add(alloc, row)?;
                Ok(())
            }
            None if is_blank(line) => Ok(()),
            None => Err(RowsError::Syntax(number)),
        }
    }

    /// Adds a row, in place of another with its name.
    fn add(&mut self, alloc: &A, row: NamedCharacters<'_>) -> Result<(), AllocError>
        requires { IsTrue (is_name row.name.now) }
        ensures { OnOk result ((name : List ℕ) →
            texts_of self.new name ≡ names_with row.entry.name.now (characters_text row.entry.characters) (texts_of self.old) name) }
    {
        let name = String::from_str(alloc.clone()?, row.name)?;
        let text = text_of(alloc.clone()?, row.characters)?;
        put(&mut self.texts, name, text)
    }
}

impl<A: Allocator> Tables for Rows<A> {
    ghost use Rattle.markdown_tables.specs.Punctuation.{builtin_punctuation};
    ghost use Rattle.markdown_tables.specs.PunctuationLaws.{ascii_punctuation, ascii_alphanumeric};
    ghost use Rattle.markdown_tables.specs.Rows.{names_of};
    ghost use Rattle.markdown_tables.specs.RowsLaws.{names_are_lawful};

    ghost reference_of = { λ read name. names_of read name };

    ghost punctuation_of = { λ _ code. builtin_punctuation code };

    /// Returns the text of a name of these rows, otherwise of a built-in one (CommonMark 2.5).
    fn reference(&self, name: &str) -> Option<&str> {
        match self.texts.get(name) {
            Some(text) => Some(text.as_str()),
            None => builtin_reference(name),
        }
    }

    /// Returns whether the general category of a character is P or S (CommonMark 2.1).
    fn is_punctuation(&self, character: char) -> bool {
        is_unicode_punctuation(character)
    }

    ghost reference_named = { λ read name text found. (names_are_lawful read name text found).named };

    ghost reference_nonempty = { λ read name text found. (names_are_lawful read name text found).nonempty };

    ghost reference_utf8 = { λ read name text found. (names_are_lawful read name text found).utf8 };

    ghost punctuation_ascii = { λ _ code given. ascii_punctuation code given };

    ghost alphanumeric_ascii = { λ _ code given. ascii_alphanumeric code given };
}
