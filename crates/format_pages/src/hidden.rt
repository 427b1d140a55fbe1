//! What a page may not show: the infos of fenced code and math, link reference definitions, and footnotes.
ghost use Rattle.std.specs.Prelude.{◌≡◌, ◌≤◌, ◌<◌, ◌^◌, ◌++◌, ◌∷◌, [], true, IfOk, OnOk, length, map, string_bytes};
ghost use Rattle.definition_text.specs.Columns.{code_byte};
ghost use Rattle.definition_text.specs.Content.{content_codes};
ghost use Rattle.text_pieces.specs.Pieces.{piece_lines};
ghost use Rattle.block_rows.specs.Rows.{definition_on, first_codes, row_size, row_value, rows_size, rows_value};
ghost use Rattle.inline_links.specs.Texts.{text_definition};
ghost use Rattle.format_pages.specs.Hidden.{HasHidden, definition_texts, definitions_in, footnotes_in, if_any, infos_in, row_footnotes};
ghost use Rattle.format_pages.specs.Hidden.{row_infos, row_texts, text_rows, texts_on};

use crate::constructs::every_construct;
use block_parser::block_rows;
use block_rows::Row;
use inline_links::text::{TextDefinition, definition_of};
use std::alloc::{AllocError, Global};
use text_lines::without_mark;
use text_pieces::content::{join_lines, push_line};
use text_pieces::piece::Piece;

/// What a page may not show of a text.
#[derive(Drop)]
pub(crate) struct Hidden {
    alloc: Global,
    /// The infos of fenced code and math, with what follows the first word. Empty ones are left out.
    infos: Vec<String>,
    /// The labels of footnote definitions, as they are written, in the order in which these begin.
    pub(crate) footnotes: Vec<String>,
    /// The label, the destination and the title of each link reference definition, as they are written. A
    /// title has a quotation mark before it.
    definitions: Vec<Vec<u8>>,
}

impl Hidden {
    /// What a page may not show of a text.
    pub(crate) fn of(alloc: Global, text: &str) -> Result<Hidden, AllocError>
        requires size { length text.now < 2 ^ 61 }
        ensures { IfOk result (λ hidden. HasHidden hidden (text_rows text.now)) }
    {
        let (before, marked) = without_mark(text);
        let blocks = block_rows(alloc, before, marked, &every_construct())?;
        Hidden::of_rows(alloc, &blocks.rows, &blocks.pieces)
    }

    /// What a page may not show of rows, which take their lines from the front of `pieces`.
    fn of_rows(alloc: Global, rows: &[Row], pieces: &[Piece<'_>]) -> Result<Hidden, AllocError>
        requires enough { rows_size rows.now ≤ length pieces.now }
        ensures { IfOk result (λ hidden. HasHidden hidden (rows_value rows.now (piece_lines pieces.now)).rows) }
    {
        let mut hidden = Hidden {
            alloc,
            infos: Vec::new(alloc),
            footnotes: Vec::new(alloc),
            definitions: Vec::new(alloc),
        };
        let mut taken = 0;
        for row in rows {
            hidden.row(*row, &pieces[taken..])?;
            taken += row.size();
        }
        Ok(hidden)
    }

    /// Adds what a page may not show of a row, which takes its lines from the front of these.
    fn row(&mut self, row: Row, lines: &[Piece<'_>]) -> Result<(), AllocError>
        requires enough { row_size row ≤ length lines.now }
        ensures infos { OnOk result (infos_in self.new ≡ infos_in self.old ++ row_infos (row_value row (piece_lines lines.now))) }
        ensures footnotes { OnOk result (
            footnotes_in self.new ≡ footnotes_in self.old ++ row_footnotes (row_value row (piece_lines lines.now))) }
        ensures definitions { OnOk result (
            definitions_in self.new ≡ definitions_in self.old ++ row_texts (row_value row (piece_lines lines.now))) }
    {
        match row {
            Row::FencedCode(_) | Row::UnclosedCode(_) | Row::WholeCode => self.info(lines),
            Row::EnterFootnote => self.footnote(lines),
            Row::Definition(count) => self.definition(&lines[..count]),
            _ => Ok(()),
        }
    }

    /// Adds the info that is the first of these lines, unless it is empty.
    fn info(&mut self, lines: &[Piece<'_>]) -> Result<(), AllocError>
        ensures infos { OnOk result (
            infos_in self.new ≡ infos_in self.old ++ if_any (map code_byte (first_codes (piece_lines lines.now)))) }
        ensures footnotes { OnOk result (footnotes_in self.new ≡ footnotes_in self.old) }
        ensures definitions { OnOk result (definitions_in self.new ≡ definitions_in self.old) }
    {
        let info = first_line(self.alloc, lines)?;
        if !info.is_empty() {
            self.infos.push(info)?;
        }
        Ok(())
    }

    /// Adds the label that is the first of these lines.
    fn footnote(&mut self, lines: &[Piece<'_>]) -> Result<(), AllocError>
        ensures infos { OnOk result (infos_in self.new ≡ infos_in self.old) }
        ensures footnotes { OnOk result (
            footnotes_in self.new ≡ footnotes_in self.old ++ map code_byte (first_codes (piece_lines lines.now)) ∷ []) }
        ensures definitions { OnOk result (definitions_in self.new ≡ definitions_in self.old) }
    {
        let label = first_line(self.alloc, lines)?;
        self.footnotes.push(label)?;
        Ok(())
    }

    /// Adds the definition on these lines.
    fn definition(&mut self, lines: &[Piece<'_>]) -> Result<(), AllocError>
        ensures infos { OnOk result (infos_in self.new ≡ infos_in self.old) }
        ensures footnotes { OnOk result (footnotes_in self.new ≡ footnotes_in self.old) }
        ensures definitions { OnOk result (
            definitions_in self.new ≡ definitions_in self.old ++ texts_on (definition_on (piece_lines lines.now))) }
    {
        let mut content = String::new(self.alloc);
        join_lines(&mut content, lines)?;
        match definition_of(&content) {
            Some(definition) => self.texts(&definition),
            None => self.no_texts(),
        }
    }

    /// Adds the texts of a definition.
    fn texts(&mut self, definition: &TextDefinition<'_>) -> Result<(), AllocError>
        ensures infos { OnOk result (infos_in self.new ≡ infos_in self.old) }
        ensures footnotes { OnOk result (footnotes_in self.new ≡ footnotes_in self.old) }
        ensures definitions { OnOk result (
            definitions_in self.new ≡ definitions_in self.old ++ definition_texts (text_definition definition.now)) }
    {
        self.text(b"", definition.label)?;
        self.text(b"", definition.destination.as_bytes())?;
        match definition.title {
            Some(title) => self.text(b"\"", title.as_bytes()),
            None => self.text(b"", b""),
        }
    }

    /// Adds three empty texts, where no definition is.
    fn no_texts(&mut self) -> Result<(), AllocError>
        ensures infos { OnOk result (infos_in self.new ≡ infos_in self.old) }
        ensures footnotes { OnOk result (footnotes_in self.new ≡ footnotes_in self.old) }
        ensures definitions { OnOk result (definitions_in self.new ≡ definitions_in self.old ++ [] ∷ [] ∷ [] ∷ []) }
    {
        self.text(b"", b"")?;
        self.text(b"", b"")?;
        self.text(b"", b"")
    }

    /// Adds a text of a definition, after what is put before it.
    fn text(&mut self, before: &[u8], text: &[u8]) -> Result<(), AllocError>
        ensures infos { OnOk result (infos_in self.new ≡ infos_in self.old) }
        ensures footnotes { OnOk result (footnotes_in self.new ≡ footnotes_in self.old) }
        ensures definitions { OnOk result (
            definitions_in self.new ≡ definitions_in self.old ++ content_codes (before.now ++ text.now) ∷ []) }
    {
        let mut bytes = Vec::new(self.alloc);
        bytes.extend_from_slice(before)?;
        bytes.extend_from_slice(text)?;
        self.definitions.push(bytes)?;
        Ok(())
    }

    /// Whether as much is hidden of another text.
    #[tactic(auto, using(crate::proofs::Same::same_strings, crate::proofs::Same::same_codes))]
    pub(crate) fn is_same(&self, other: &Hidden) -> bool
        ensures infos { result ≡ true → infos_in self.now ≡ infos_in other.now }
        ensures footnotes { result ≡ true → footnotes_in self.now ≡ footnotes_in other.now }
        ensures definitions { result ≡ true → definitions_in self.now ≡ definitions_in other.now }
    {
        self.infos == other.infos
            && self.footnotes == other.footnotes
            && self.definitions == other.definitions
    }
}

/// The first of these lines, with a space for each remaining column of a tab.
fn first_line(alloc: Global, lines: &[Piece<'_>]) -> Result<String, AllocError>
    ensures { IfOk result (λ text. string_bytes text ≡ map code_byte (first_codes (piece_lines lines.now))) }
{
    let mut text = String::new(alloc);
    if let [line, ..] = lines {
        push_line(&mut text, line.owed, line.text)?;
    }
    Ok(text)
}
