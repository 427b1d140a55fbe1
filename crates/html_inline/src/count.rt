//! The calls of footnotes in a content that isn't printed: they count.
ghost use Rattle.std.specs.Prelude.{◌≡◌, ℕ, List, OnOk};
ghost use Rattle.std.specs.List.{fold};
ghost use Rattle.markdown_compile_options.specs.declared.configuration.CompileOptions as compile_options;
ghost use Rattle.definition_text.specs.Content.{content_codes};
ghost use Rattle.definition_inline.specs.Inline as inline;
ghost use Rattle.definition_inline.specs.LabelMatch.{first_match, normal_label};
ghost use Rattle.definition_inline.specs.Targets.{leads_to};
ghost use Rattle.definition_page.specs.InlinePieces.{Meaning, count_at, inline_counts};
ghost use Rattle.html_bytes.specs.Layout.{lay};
ghost use Rattle.html_bytes.specs.Pieces.{in_bytes};
ghost use Rattle.html_footnotes.specs.Output.{output_view};
ghost use Rattle.inline_labels.specs.Table.{HasLabels};
ghost use Rattle.inline_rows.specs.InlineRows as rows_of;
ghost use Rattle.inline_rows.specs.View.{row_view, rows_view};
ghost use Rattle.html_inline.specs.Counts.{rows_counts};
ghost use Rattle.html_inline.specs.GfmTable.{parts_in_cell};
ghost use Rattle.html_inline.specs.Opens.{place_target};
ghost use Rattle.html_inline.specs.Prints.{meaning_by, Definitions};

use crate::printing::{Printing, Scratch};
use html_footnotes::Output;
use inline_labels::{LabelTable, normalize_label};
use inline_rows::InlineRow;
use markdown_options::Tables;
use std::alloc::{AllocError, Allocator};

/// Counts the calls of footnotes among the rows of a content that isn't printed.
pub fn count_rows<A: Allocator + Clone, T: Tables>(
    out: &mut Output<A>,
    scratch: &mut Scratch<A>,
    printing: &Printing<'_, A, T>,
    rows: &[InlineRow<'_>],
) -> Result<(), AllocError>
    ensures { (definition : Definitions) (footnotes : List (List ℕ)) (default : List ℕ) (is : inline.Inlines) →
        let meaning = meaning_by (T.reference_of printing.now.tables.now) printing.now definition footnotes in
        HasLabels printing.now.footnotes.now footnotes →
        rows_view (place_target printing.now.definitions.now) rows.now ≡ rows_of.inline_rows (leads_to definition) is →
        OnOk result (output_view out.new
        ≡ fold (lay printing.now.compile.now default) (output_view out.old) (in_bytes (inline_counts meaning (parts_in_cell printing.now.cell is)))) }
{
    for row in rows {
        count_row(out, &mut scratch.text, printing.footnotes, *row)?;
    }
    Ok(())
}

/// Counts a row that is a call.
fn count_row<A: Allocator + Clone>(
    out: &mut Output<A>,
    text: &mut String<A>,
    footnotes: &LabelTable<A>,
    row: InlineRow<'_>,
) -> Result<(), AllocError>
    ensures { (meaning : Meaning) (at : ℕ → inline.LinkTexts) (default : List ℕ) →
        HasLabels footnotes.now meaning.footnotes →
        OnOk result (output_view out.new ≡ fold (lay meaning.compile default) (output_view out.old) (in_bytes (rows_counts meaning (row_view at row.entry)))) }
{
    match row {
        InlineRow::Call(label) => count_call(out, text, footnotes, label),
        InlineRow::Text(_) => Ok(()),
        InlineRow::Verbatim(_) => Ok(()),
        InlineRow::Leaf(_) => Ok(()),
        InlineRow::Spelled(_) => Ok(()),
        InlineRow::EnterSpan(_) => Ok(()),
        InlineRow::EnterLink(_) => Ok(()),
        InlineRow::EnterImage(_) => Ok(()),
        InlineRow::Exit => Ok(()),
    }
}

/// Counts a call of the footnote with this label.
fn count_call<A: Allocator + Clone>(
    out: &mut Output<A>,
    text: &mut String<A>,
    footnotes: &LabelTable<A>,
    label: &str,
) -> Result<(), AllocError>
    ensures { (options : compile_options.CompileOptions) (default : List ℕ) (labels : List (List ℕ)) → HasLabels footnotes.now labels →
        let codes = content_codes label.now in
        OnOk result (output_view out.new ≡ fold (lay options default) (output_view out.old) (in_bytes (count_at (first_match codes labels) (normal_label codes)))) }
{
    normalize_label(text, label.as_bytes())?;
    let label = text.as_str();
    match footnotes.find_normal(label) {
        None => Ok(()),
        Some(place) => out.count(place, label),
    }
}
