//! The labels of a document's footnote definitions (in neither standard).
ghost use Rattle.std.specs.Prelude.{◌≡◌, ◌≤◌, ◌++◌, ◌∷◌, [], ℕ, List, true, false, length, IfOk, OnOk};
ghost use Rattle.std.specs.List.{list_any};
ghost use Rattle.std.specs.Option.{option_map};
ghost use Rattle.definition_text.specs.Content.{content_codes};
ghost use Rattle.definition_block.specs.Blocks.{Blocks};
ghost use Rattle.definition_block.specs.Definitions.{footnotes};
ghost use Rattle.block_rows.specs.Rows.{rows_size, row_size, row_value, rows_of, rows_value};
ghost use Rattle.text_pieces.specs.Pieces.{piece_lines};
ghost use Rattle.block_targets.specs.GfmFootnoteDefinition.{HasEnded, HasLabelsSoFar, LabelsSoFar, labels_so_far, nothing_noted};
ghost use Rattle.block_targets.specs.GfmFootnoteDefinition.{are_bare_rows, is_bare_row, note_exit, note_row};
ghost use Rattle.block_targets.specs.GfmFootnoteDefinition.{starts_footnote};

use block_rows::Row;
use inline_labels::LabelTable;
use std::alloc::{AllocError, Allocator};
use text_pieces::Piece;

/// The footnote definitions of a document, in the order in which they end: one ends after those
/// that stand in it.
#[derive(Drop)]
pub struct Footnotes<'a, A: Allocator + Clone> {
    /// The place of the first that ends for each label.
    pub labels: LabelTable<A>,
    /// Their labels, as they are written.
    pub names: Vec<&'a str, A>,
    /// For each container that is open its label, if it is one, the innermost last.
    containers: Vec<Option<&'a str>, A>,
}

/// The footnote definitions among the rows of a block tree, whose blocks take their lines from
/// `pieces`: of equal labels the first to end counts. `may_define` is false where it is known that
/// there are none.
pub fn document_footnotes<'a, A: Allocator + Clone>(
    alloc: A,
    may_define: bool,
    rows: &[Row],
    pieces: &[Piece<'a>],
) -> Result<Footnotes<'a, A>, AllocError>
    requires enough { rows_size rows.now ≤ length pieces.now }
    ensures { (bs : Blocks) → (rows_value rows.now (piece_lines pieces.now)).rows ≡ rows_of bs → are_bare_rows (rows_of bs) ≡ true →
        (may_define ≡ false → footnotes bs ≡ []) → IfOk result (λ found. HasLabelsSoFar found (labels_so_far (footnotes bs) [])) }
{
    let mut found = Footnotes::new(alloc)?;
    if !may_define {
        return Ok(found);
    }
    if !has_footnotes(rows) {
        return Ok(found);
    }
    let mut at = 0;
    for row in rows {
        found.row(*row, &pieces[at..])?;
        at += row.size();
    }
    Ok(found)
}

/// Whether a footnote definition starts in some row.
fn has_footnotes(rows: &[Row]) -> bool
    ensures { result ≡ list_any starts_footnote rows.now }
{
    rows.iter().any(|row| matches!(row, Row::EnterFootnote))
}

impl<'a, A: Allocator + Clone> Footnotes<'a, A> {
    fn new(alloc: A) -> Result<Footnotes<'a, A>, AllocError>
        ensures { IfOk result (λ found. HasLabelsSoFar found nothing_noted) }
    {
        Ok(Footnotes {
            labels: LabelTable::new(alloc.clone()?)?,
            names: Vec::new(alloc.clone()?),
            containers: Vec::new(alloc),
        })
    }

    /// Reads a row. The start of a footnote definition takes its label from the front of these.
    fn row(&mut self, row: Row, lines: &[Piece<'a>]) -> Result<(), AllocError>
        requires enough { row_size row ≤ length lines.now }
        ensures read { (n : LabelsSoFar) → HasLabelsSoFar self.old n → is_bare_row (row_value row (piece_lines lines.now)) ≡ true →
            OnOk result (HasLabelsSoFar self.new (note_row n (row_value row (piece_lines lines.now)))) }
    {
        match row {
            Row::EnterQuote => self.enter(None),
            Row::EnterItem { .. } => self.enter(None),
            Row::EnterFootnote => self.enter(Some(lines[0].text)),
            Row::Exit => self.exit(),
            _ => Ok(()),
        }
    }

    /// A container starts, with its label if it is a footnote definition.
    fn enter(&mut self, label: Option<&'a str>) -> Result<(), AllocError>
        ensures read { (n : LabelsSoFar) → HasLabelsSoFar self.old n → OnOk result (
            HasLabelsSoFar self.new (labels_so_far n.ended (option_map (λ text. content_codes text.now) label.entry ∷ n.containers))) }
    {
        self.containers.push(label)?;
        Ok(())
    }

    /// The innermost container ends.
    fn exit(&mut self) -> Result<(), AllocError>
        ensures read { (n : LabelsSoFar) → HasLabelsSoFar self.old n → OnOk result (HasLabelsSoFar self.new (note_exit n.ended n.containers)) }
    {
        match self.containers.pop() {
            Some(Some(label)) => self.end(label),
            _ => Ok(()),
        }
    }

    /// The footnote definition of a label ends.
    fn end(&mut self, label: &'a str) -> Result<(), AllocError>
        ensures containers { self.new.containers ≡ self.old.containers }
        ensures read { (ended : List (List ℕ)) → HasEnded self.old ended → OnOk result (HasEnded self.new (ended ++ content_codes label.now ∷ [])) }
    {
        self.labels.insert(label.as_bytes(), self.names.len())?;
        self.names.push(label)?;
        Ok(())
    }
}
