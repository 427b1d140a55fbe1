//! The labels of the definitions of a text (CommonMark 4.7), in the form in which they match.
ghost use Rattle.std.specs.Prelude.{◌≡◌, ◌≤◌, ◌++◌, ◌∷◌, [], IfOk, OnOk, length, map, string_bytes};
ghost use Rattle.definition_text.specs.Content.{content_codes};
ghost use Rattle.definition_inline.specs.Definition.{definition_at};
ghost use Rattle.definition_inline.specs.LabelMatch.{normal_label};
ghost use Rattle.text_pieces.specs.Pieces.{piece_lines};
ghost use Rattle.block_rows.specs.Rows.{definition_on, first_codes, row_definitions, row_size, row_value, rows_size, rows_value};
ghost use Rattle.parse_events.specs.Labels.{HasLabels, begun_in, defined_in, normal_labels, own_label, row_begun};

use block_rows::Row;
use inline_labels::normalize_label;
use inline_links::text::definition_of;
use std::alloc::{AllocError, Allocator};
use text_pieces::{Piece, join_lines};

/// The labels that a text defines, in the order of the text and with repeats.
#[derive(Drop)]
pub(crate) struct Labels<A: Allocator> {
    alloc: A,
    /// Those of link reference definitions.
    pub(crate) definitions: Vec<String<A>, A>,
    /// Those of footnote definitions.
    pub(crate) footnotes: Vec<String<A>, A>,
    /// The content of a definition.
    content: String<A>,
}

impl<A: Allocator + Clone> Labels<A> {
    /// The labels that rows define, which take their lines from the front of `pieces`.
    #[tactic(auto, using(block_rows::proofs::RowSteps::taken_more))]
    pub(crate) fn of_rows(
        alloc: A,
        rows: &[Row],
        pieces: &[Piece<'_>],
    ) -> Result<Labels<A>, AllocError>
        requires enough { rows_size rows.now ≤ length pieces.now }
        ensures labels { IfOk result (λ labels. HasLabels labels (rows_value rows.now (piece_lines pieces.now)).rows) }
    {
        let mut labels = Labels::new(alloc)?;
        let mut taken = 0;
        for row in rows {
            labels.row(*row, &pieces[taken..])?;
            taken += row.size();
        }
        Ok(labels)
    }

    /// No labels.
    fn new(alloc: A) -> Result<Labels<A>, AllocError>
        ensures defined { IfOk result (λ labels. defined_in labels ≡ []) }
        ensures begun { IfOk result (λ labels. begun_in labels ≡ []) }
    {
        Ok(Labels {
            definitions: Vec::new(alloc.clone()?),
            footnotes: Vec::new(alloc.clone()?),
            content: String::new(alloc.clone()?),
            alloc,
        })
    }

    /// Adds the label of a row, which takes its lines from the front of these, if it defines one.
    fn row(&mut self, row: Row, lines: &[Piece<'_>]) -> Result<(), AllocError>
        requires enough { row_size row ≤ length lines.now }
        ensures defined { OnOk result (
            defined_in self.new ≡ defined_in self.old ++ normal_labels (row_definitions (row_value row (piece_lines lines.now)))) }
        ensures begun { OnOk result (
            begun_in self.new ≡ begun_in self.old ++ map normal_label (row_begun (row_value row (piece_lines lines.now)))) }
    {
        match row {
            Row::Definition(count) => self.definition(&lines[..count]),
            Row::EnterFootnote => self.footnote(lines),
            _ => Ok(()),
        }
    }

    /// Adds the label of the link reference definition on these lines.
    fn definition(&mut self, lines: &[Piece<'_>]) -> Result<(), AllocError>
        ensures defined { OnOk result (defined_in self.new ≡ defined_in self.old ++ own_label (definition_on (piece_lines lines.now)) ∷ []) }
        ensures begun { OnOk result (begun_in self.new ≡ begun_in self.old) }
    {
        join_lines(&mut self.content, lines)?;
        let label = definition_label(self.alloc.clone()?, &self.content)?;
        self.definitions.push(label)?;
        Ok(())
    }

    /// Adds the label of a footnote definition, which is the first of these lines.
    fn footnote(&mut self, lines: &[Piece<'_>]) -> Result<(), AllocError>
        ensures defined { OnOk result (defined_in self.new ≡ defined_in self.old) }
        ensures begun { OnOk result (begun_in self.new ≡ begun_in self.old ++ normal_label (first_codes (piece_lines lines.now)) ∷ []) }
    {
        let label = footnote_label(self.alloc.clone()?, lines)?;
        self.footnotes.push(label)?;
        Ok(())
    }
}

/// The label of the definition that a content is.
fn definition_label<A: Allocator>(alloc: A, content: &str) -> Result<String<A>, AllocError>
    ensures { IfOk result (λ label. string_bytes label ≡ own_label (definition_at (content_codes content.now))) }
{
    let mut label = String::new(alloc);
    if let Some(definition) = definition_of(content) {
        normalize_label(&mut label, definition.label)?;
    }
    Ok(label)
}

/// The label of a footnote definition, which is the first of these lines.
#[tactic(auto, using(crate::proofs::FootnoteCodes::label_first, crate::proofs::FootnoteCodes::label_none))]
fn footnote_label<A: Allocator>(alloc: A, lines: &[Piece<'_>]) -> Result<String<A>, AllocError>
    ensures { IfOk result (λ label. string_bytes label ≡ normal_label (first_codes (piece_lines lines.now))) }
{
    let mut label = String::new(alloc);
    let [line, ..] = lines else {
        return Ok(label);
    };
    normalize_label(&mut label, line.text.as_bytes())?;
    Ok(label)
}
