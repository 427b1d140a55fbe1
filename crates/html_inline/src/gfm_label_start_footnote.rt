//! Calls of footnotes (in no standard; as GitHub prints them).
//!
//! A call prints the number of its footnote, but for one in the description of an image, which
//! counts and prints nothing.
ghost use Rattle.std.specs.Prelude.{◌≡◌, ℕ, List, OnOk, map, reverse};
ghost use Rattle.definition_text.specs.Content.{content_codes};
ghost use Rattle.html_footnotes.specs.Output.{output_view};
ghost use Rattle.inline_labels.specs.Table.{HasLabels};
ghost use Rattle.inline_rows.specs.declared.row.InlineRow.{InlineRow};
ghost use Rattle.html_inline.specs.Opens.{opened_view, place_target};
ghost use Rattle.html_inline.specs.Printed.{call_row, is_described, laid_out};
ghost use Rattle.html_inline.specs.Prints.{meaning_by, Definitions};

use crate::printing::{Printing, Scratch};
use crate::stack::is_described;
use html_footnotes::Output;
use inline_labels::normalize_label;
use markdown_options::Tables;
use std::alloc::{AllocError, Allocator};

/// Prints a call of the footnote with this label, or counts it.
pub(crate) fn push_call<A: Allocator + Clone, T: Tables>(
    out: &mut Output<A>,
    scratch: &mut Scratch<A>,
    printing: &Printing<'_, A, T>,
    label: &str,
) -> Result<(), AllocError>
    ensures stack { scratch.new.stack ≡ scratch.old.stack }
    ensures laid { (definition : Definitions) (footnotes : List (List ℕ)) (rows : List InlineRow) →
        let meaning = meaning_by (T.reference_of printing.now.tables.now) printing.now definition footnotes in
        let stack = map (opened_view meaning (place_target printing.now.definitions.now) rows) (reverse scratch.old.stack.items) in
        HasLabels printing.now.footnotes.now footnotes →
        OnOk result (output_view out.new ≡ laid_out meaning (output_view out.old) (call_row meaning (is_described stack) (content_codes label.now))) }
{
    normalize_label(&mut scratch.text, label.as_bytes())?;
    let label = scratch.text.as_str();
    match printing.footnotes.find_normal(label) {
        None => Ok(()),
        Some(place) => {
            if is_described(scratch.stack.as_slice()) {
                out.count(place, label)
            } else {
                out.call(printing.compile, place, label)
            }
        }
    }
}
