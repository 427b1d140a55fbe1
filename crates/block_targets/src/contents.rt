//! The contents of a document's link reference definitions (CommonMark 4.7).
ghost use Rattle.std.specs.Prelude.{◌≡◌, ◌≤◌, ◌++◌, ◌∷◌, [], List, IfOk, OnOk, length};
ghost use Rattle.std.specs.List.{list_any};
ghost use Rattle.definition_block.specs.Blocks.{Blocks};
ghost use Rattle.definition_inline.specs.Definition.{Definition};
ghost use Rattle.block_rows.specs.Rows.{rows_size, definition_on, row_size, row_definitions, row_value, rows_of, rows_value};
ghost use Rattle.text_pieces.specs.Pieces.{piece_lines};
ghost use Rattle.definition_block.specs.Definitions.{document_definitions};
ghost use Rattle.block_targets.specs.Read.{HasContents, alone, is_definition, takes_lines};

use block_rows::Row;
use std::alloc::{AllocError, Allocator};
use text_pieces::{Piece, join_lines};

/// The contents of definitions, in the order of the text.
#[derive(Drop)]
pub struct DefinitionContents<A: Allocator + Clone> {
    pub(crate) texts: Vec<String<A>, A>,
    alloc: A,
}

/// The contents of the definitions among the rows of a block tree, whose blocks take their lines
/// from `pieces`: in the order of the text, whichever container they stand in (CommonMark 4.7).
pub fn definition_contents<A: Allocator + Clone>(
    alloc: A,
    rows: &[Row],
    pieces: &[Piece<'_>],
) -> Result<DefinitionContents<A>, AllocError>
    requires enough { rows_size rows.now ≤ length pieces.now }
    ensures { (bs : Blocks) → (rows_value rows.now (piece_lines pieces.now)).rows ≡ rows_of bs →
        IfOk result (λ contents. HasContents contents (document_definitions bs)) }
{
    let mut contents = DefinitionContents::new(alloc)?;
    if !has_definitions(rows) {
        return Ok(contents);
    }
    let mut at = 0;
    for row in rows {
        at += contents.row(*row, &pieces[at..])?;
    }
    Ok(contents)
}

/// Whether a row may take lines. Most don't, and are passed by one test.
fn takes_lines(row: Row) -> bool
    ensures { result ≡ takes_lines row }
{
    !matches!(
        row,
        Row::Break
            | Row::EnterQuote
            | Row::EnterItem { .. }
            | Row::Exit
            | Row::Ending(_)
            | Row::Blank(_)
    )
}

/// Whether some row is a definition.
fn has_definitions(rows: &[Row]) -> bool
    ensures { result ≡ list_any is_definition rows.now }
{
    rows.iter().any(|row| matches!(row, Row::Definition(_)))
}

impl<A: Allocator + Clone> DefinitionContents<A> {
    fn new(alloc: A) -> Result<DefinitionContents<A>, AllocError>
        ensures { IfOk result (λ contents. HasContents contents []) }
    {
        Ok(DefinitionContents {
            texts: Vec::new(alloc.clone()?),
            alloc,
        })
    }

    /// Reads a row. A definition takes its lines from the front of these. Answers how many a row takes.
    fn row(&mut self, row: Row, lines: &[Piece<'_>]) -> Result<usize, AllocError>
        requires enough { row_size row ≤ length lines.now }
        ensures size { IfOk result (λ taken. taken ≡ row_size row) }
        ensures read { (ds : List Definition) → HasContents self.old ds →
            OnOk result (HasContents self.new (ds ++ row_definitions (row_value row (piece_lines lines.now)))) }
    {
        if !takes_lines(row) {
            return Ok(0);
        }
        self.block(row, lines)?;
        Ok(row.size())
    }

    /// Reads the row of a block. A definition takes its lines from the front of these.
    fn block(&mut self, row: Row, lines: &[Piece<'_>]) -> Result<(), AllocError>
        requires enough { row_size row ≤ length lines.now }
        ensures read { (ds : List Definition) → HasContents self.old ds →
            OnOk result (HasContents self.new (ds ++ row_definitions (row_value row (piece_lines lines.now)))) }
    {
        match row {
            Row::Definition(count) => self.definition(&lines[..count]),
            _ => Ok(()),
        }
    }

    /// Reads the definition on these lines.
    fn definition(&mut self, lines: &[Piece<'_>]) -> Result<(), AllocError>
        ensures read { (ds : List Definition) → HasContents self.old ds →
            OnOk result (HasContents self.new (ds ++ alone (definition_on (piece_lines lines.now)) ∷ [])) }
    {
        let mut text = String::new(self.alloc.clone()?);
        join_lines(&mut text, lines)?;
        self.texts.push(text)?;
        Ok(())
    }
}
