//! Rows to HTML.
//!
//! In the description of an image no tag is printed, and nothing for the URL and the title of a
//! link or an image (CommonMark 6.4). The title of an image comes after its description.
ghost use Rattle.std.specs.Prelude.{◌≡◌, ◌∷◌, [], ℕ, Bool, List, OnOk, map, reverse, slice_index_or};
ghost use Rattle.std.specs.List.{fold};
ghost use Rattle.definition_inline.specs.Inline as inline;
ghost use Rattle.definition_inline.specs.Targets.{leads_to};
ghost use Rattle.definition_page.specs.InlinePieces.{Meaning, inline_pieces};
ghost use Rattle.html_bytes.specs.Layout.{lay};
ghost use Rattle.html_bytes.specs.Pieces.{in_bytes};
ghost use Rattle.html_footnotes.specs.Output.{output_view};
ghost use Rattle.inline_labels.specs.Table.{HasLabels};
ghost use Rattle.inline_rows.specs.InlineRows as rows_of;
ghost use Rattle.inline_runs.specs.View.{span_view};
ghost use Rattle.inline_leaves.specs.Leaves.{parts_of};
ghost use Rattle.inline_links.specs.View.{link_texts_view};
ghost use Rattle.inline_rows.specs.View.{data_rows, lines_rows, row_view, rows_view, spelled_view, target_texts};
ghost use Rattle.inline_rows.specs.declared.row.InlineRow.{InlineRow};
ghost use Rattle.inline_rows.specs.declared.row.InlineRow.TheVariants.{Exit};
ghost use Rattle.html_inline.specs.GfmTable.{parts_in_cell, leaf_in, row_printed_in};
ghost use Rattle.html_inline.specs.Opens.{image_target, opened_view, place_target, printed_of};
ghost use Rattle.html_inline.specs.Printed.{is_described, leaves_bytes, with_row, span_end, span_start};
ghost use Rattle.html_inline.specs.Prints.{meaning_by, Definitions, Prints};

use crate::gfm_label_start_footnote::push_call;
use crate::label_end::{NOWHERE, linked_at, push_image_end, push_image_start, push_link_start};
use crate::leaf::{push_description, push_leaf};
use crate::printing::{Printing, Scratch};
use crate::spelled::{push_spelled_description, push_spelled_leaf};
use crate::stack::{OpenPart, is_described};
use html_escape::push_encoded;
use html_footnotes::Output;
use inline_leaves::LeafPart;
use inline_links::LinkTexts;
use inline_rows::{InlineRow, LinkTarget, SpelledLeaf, VerbatimText};
use inline_runs::Span;
use markdown_options::Tables;
use std::alloc::{AllocError, Allocator};

/// Prints the rows of a content: where these are the rows of some inline structure, what it prints.
/// Its calls are numbered after those before them.
pub fn push_rows<A: Allocator + Clone, T: Tables>(
    out: &mut Output<A>,
    scratch: &mut Scratch<A>,
    printing: &Printing<'_, A, T>,
    rows: &[InlineRow<'_>],
) -> Result<(), AllocError>
    ensures { (definition : Definitions) (footnotes : List (List ℕ)) (default : List ℕ) (is : inline.Inlines) →
        let meaning = meaning_by (T.reference_of printing.now.tables.now) printing.now definition footnotes in
        HasLabels printing.now.footnotes.now footnotes →
        rows_view (place_target printing.now.definitions.now) rows.now ≡ rows_of.inline_rows (leads_to definition) is →
        OnOk result (output_view out.new
        ≡ fold (lay printing.now.compile.now default) (output_view out.old) (in_bytes (inline_pieces meaning (parts_in_cell printing.now.cell is)))) }
{
    scratch.stack.clear();
    for (place, row) in rows.iter().enumerate() {
        push_row(out, scratch, printing, rows, place, *row)?;
    }
    Ok(())
}

/// The same of the row of a content that has no other. Text is printed with no walk over rows.
#[inline(always)]
pub fn push_alone<A: Allocator + Clone, T: Tables>(
    out: &mut Output<A>,
    scratch: &mut Scratch<A>,
    printing: &Printing<'_, A, T>,
    row: InlineRow<'_>,
) -> Result<(), AllocError>
    ensures { (definition : Definitions) (footnotes : List (List ℕ)) (default : List ℕ) (is : inline.Inlines) →
        let meaning = meaning_by (T.reference_of printing.now.tables.now) printing.now definition footnotes in
        HasLabels printing.now.footnotes.now footnotes →
        rows_view (place_target printing.now.definitions.now) (row.entry ∷ []) ≡ rows_of.inline_rows (leads_to definition) is →
        OnOk result (output_view out.new
        ≡ fold (lay printing.now.compile.now default) (output_view out.old) (in_bytes (inline_pieces meaning (parts_in_cell printing.now.cell is)))) }
{
    match row {
        InlineRow::Text(text) => push_plain(out, text),
        InlineRow::Verbatim(verbatim) => push_verbatim(out, verbatim),
        InlineRow::Leaf(_)
        | InlineRow::Spelled(_)
        | InlineRow::EnterSpan(_)
        | InlineRow::EnterLink(_)
        | InlineRow::EnterImage(_)
        | InlineRow::Call(_)
        | InlineRow::Exit => push_rows(out, scratch, printing, &[row]),
    }
}

/// Prints a content that is text alone: where its bytes are the rows of some inline structure, what
/// that prints, in a cell of a table or not.
fn push_plain<A: Allocator + Clone>(out: &mut Output<A>, text: &str) -> Result<(), AllocError>
    ensures { (meaning : Meaning) (default : List ℕ) (cell : Bool) (is : inline.Inlines) →
        data_rows text.now ≡ rows_of.inline_rows (leads_to meaning.definition) is →
        OnOk result (output_view out.new
        ≡ fold (lay meaning.compile default) (output_view out.old) (in_bytes (inline_pieces meaning (parts_in_cell cell is)))) }
{
    push_encoded(&mut out.html, text)
}

/// Prints a content that is verbatim text alone, which may have soft line breaks, in a cell of a
/// table or not.
fn push_verbatim<A: Allocator + Clone>(
    out: &mut Output<A>,
    verbatim: VerbatimText<'_>,
) -> Result<(), AllocError>
    ensures { (meaning : Meaning) (default : List ℕ) (cell : Bool) (is : inline.Inlines) →
        lines_rows verbatim.entry.text.now ≡ rows_of.inline_rows (leads_to meaning.definition) is →
        OnOk result (output_view out.new
        ≡ fold (lay meaning.compile default) (output_view out.old) (in_bytes (inline_pieces meaning (parts_in_cell cell is)))) }
{
    out.html.push_str(verbatim.text)
}

/// Prints a row, which stands at a place.
fn push_row<A: Allocator + Clone, T: Tables>(
    out: &mut Output<A>,
    scratch: &mut Scratch<A>,
    printing: &Printing<'_, A, T>,
    rows: &[InlineRow<'_>],
    place: usize,
    row: InlineRow<'_>,
) -> Result<(), AllocError>
    requires { slice_index_or rows.now place Exit ≡ row }
    ensures { (definition : Definitions) (footnotes : List (List ℕ)) →
        let meaning = meaning_by (T.reference_of printing.now.tables.now) printing.now definition footnotes in
        let at = place_target printing.now.definitions.now in
        HasLabels printing.now.footnotes.now footnotes →
        OnOk result (printed_of meaning at rows.now (output_view out.new) scratch.new.stack.items
        ≡ fold (row_printed_in printing.now.cell meaning) (printed_of meaning at rows.now (output_view out.old) scratch.old.stack.items)
        (row_view at row.entry)) }
{
    match row {
        InlineRow::Text(text) => push_encoded(&mut out.html, text),
        InlineRow::Verbatim(verbatim) => out.html.push_str(verbatim.text),
        InlineRow::Leaf(part) => push_part(&mut out.html, scratch, printing, part),
        InlineRow::Spelled(leaf) => push_spelled(&mut out.html, scratch, printing, leaf),
        InlineRow::EnterSpan(span) => enter_span(out, scratch, span),
        InlineRow::EnterLink(target) => enter_link(out, scratch, printing, target),
        InlineRow::EnterImage(target) => enter_image(out, scratch, printing, place, target),
        InlineRow::Call(label) => push_call(out, scratch, printing, label),
        InlineRow::Exit => exit(out, scratch, printing, rows),
    }
}

/// Prints a construct that holds no other.
fn push_part<A: Allocator + Clone, T: Tables>(
    out: &mut String<A>,
    scratch: &mut Scratch<A>,
    printing: &Printing<'_, A, T>,
    part: LeafPart<'_>,
) -> Result<(), AllocError>
    ensures stack { scratch.new.stack ≡ scratch.old.stack }
    ensures printed { (definition : Definitions) (footnotes : List (List ℕ)) (rows : List InlineRow) →
        let meaning = meaning_by (T.reference_of printing.now.tables.now) printing.now definition footnotes in
        let at = place_target printing.now.definitions.now in
        Prints result out.old out.new (leaves_bytes printing.now.compile.now (is_described (map (opened_view meaning at rows) (reverse scratch.old.stack.items)))
        (map (leaf_in printing.now.cell) (parts_of part.entry))) }
{
    if is_described(scratch.stack.as_slice()) {
        push_description(
            out,
            &mut scratch.text,
            printing.compile,
            printing.cell,
            part,
        )
    } else {
        push_leaf(out, &mut scratch.text, printing, part)
    }
}

/// Prints a construct that holds no other, as events spell it.
fn push_spelled<A: Allocator + Clone, T: Tables>(
    out: &mut String<A>,
    scratch: &mut Scratch<A>,
    printing: &Printing<'_, A, T>,
    leaf: SpelledLeaf<'_>,
) -> Result<(), AllocError>
    ensures stack { scratch.new.stack ≡ scratch.old.stack }
    ensures printed { (definition : Definitions) (footnotes : List (List ℕ)) (rows : List InlineRow) →
        let meaning = meaning_by (T.reference_of printing.now.tables.now) printing.now definition footnotes in
        let at = place_target printing.now.definitions.now in
        Prints result out.old out.new (leaves_bytes printing.now.compile.now (is_described (map (opened_view meaning at rows) (reverse scratch.old.stack.items)))
        (leaf_in printing.now.cell (spelled_view leaf.entry) ∷ [])) }
{
    if is_described(scratch.stack.as_slice()) {
        push_spelled_description(out, printing.compile, printing.cell, leaf)
    } else {
        push_spelled_leaf(out, printing.compile, printing.cell, leaf)
    }
}

/// A span starts (CommonMark 6.2).
fn enter_span<A: Allocator + Clone>(
    out: &mut Output<A>,
    scratch: &mut Scratch<A>,
    span: Span,
) -> Result<(), AllocError>
    ensures { (meaning : Meaning) (at : ℕ → inline.LinkTexts) (rows : List InlineRow) →
        OnOk result (printed_of meaning at rows (output_view out.new) scratch.new.stack.items
        ≡ with_row meaning (printed_of meaning at rows (output_view out.old) scratch.old.stack.items) (rows_of.EnterSpan (span_view span))) }
{
    if is_described(scratch.stack.as_slice()) {
        scratch.stack.push(OpenPart::Silent)?;
        return Ok(());
    }
    out.html.push_str(span_start(span))?;
    scratch.stack.push(OpenPart::Span(span))?;
    Ok(())
}

/// A link starts (CommonMark 6.3).
fn enter_link<A: Allocator + Clone, T: Tables>(
    out: &mut Output<A>,
    scratch: &mut Scratch<A>,
    printing: &Printing<'_, A, T>,
    target: LinkTarget<'_>,
) -> Result<(), AllocError>
    ensures { (definition : Definitions) (footnotes : List (List ℕ)) (rows : List InlineRow) →
        let meaning = meaning_by (T.reference_of printing.now.tables.now) printing.now definition footnotes in
        let at = place_target printing.now.definitions.now in
        OnOk result (printed_of meaning at rows (output_view out.new) scratch.new.stack.items
        ≡ with_row meaning (printed_of meaning at rows (output_view out.old) scratch.old.stack.items) (rows_of.EnterLinked inline.Link (target_texts at target.entry))) }
{
    if is_described(scratch.stack.as_slice()) {
        scratch.stack.push(OpenPart::Silent)?;
        return Ok(());
    }
    let linked = linked_at(printing.definitions, target);
    push_link_start(&mut out.html, &mut scratch.text, printing, linked)?;
    scratch.stack.push(OpenPart::Link)?;
    Ok(())
}

/// An image starts, by the row at this place (CommonMark 6.4).
fn enter_image<A: Allocator + Clone, T: Tables>(
    out: &mut Output<A>,
    scratch: &mut Scratch<A>,
    printing: &Printing<'_, A, T>,
    place: usize,
    target: LinkTarget<'_>,
) -> Result<(), AllocError>
    ensures { (definition : Definitions) (footnotes : List (List ℕ)) (rows : List InlineRow) →
        let meaning = meaning_by (T.reference_of printing.now.tables.now) printing.now definition footnotes in
        let at = place_target printing.now.definitions.now in
        image_target at (slice_index_or rows place Exit) ≡ target_texts at target.entry →
        OnOk result (printed_of meaning at rows (output_view out.new) scratch.new.stack.items
        ≡ with_row meaning (printed_of meaning at rows (output_view out.old) scratch.old.stack.items)
        (rows_of.EnterLinked inline.Image (target_texts at target.entry))) }
{
    if is_described(scratch.stack.as_slice()) {
        scratch.stack.push(OpenPart::Silent)?;
        return Ok(());
    }
    let linked = linked_at(printing.definitions, target);
    push_image_start(&mut out.html, &mut scratch.text, printing, linked)?;
    scratch.stack.push(OpenPart::Image(place))?;
    Ok(())
}

/// The innermost part that holds others ends.
fn exit<A: Allocator + Clone, T: Tables>(
    out: &mut Output<A>,
    scratch: &mut Scratch<A>,
    printing: &Printing<'_, A, T>,
    rows: &[InlineRow<'_>],
) -> Result<(), AllocError>
    ensures { (definition : Definitions) (footnotes : List (List ℕ)) →
        let meaning = meaning_by (T.reference_of printing.now.tables.now) printing.now definition footnotes in
        let at = place_target printing.now.definitions.now in
        OnOk result (printed_of meaning at rows.now (output_view out.new) scratch.new.stack.items
        ≡ with_row meaning (printed_of meaning at rows.now (output_view out.old) scratch.old.stack.items) rows_of.Leave) }
{
    match scratch.stack.pop() {
        None => Ok(()),
        Some(part) => push_end(&mut out.html, &mut scratch.text, printing, rows, part),
    }
}

/// Prints what stands at the end of a part that holds others.
fn push_end<A: Allocator + Clone, T: Tables>(
    out: &mut String<A>,
    text: &mut String<A>,
    printing: &Printing<'_, A, T>,
    rows: &[InlineRow<'_>],
    part: OpenPart,
) -> Result<(), AllocError>
    ensures { (definition : Definitions) (footnotes : List (List ℕ)) →
        let meaning = meaning_by (T.reference_of printing.now.tables.now) printing.now definition footnotes in
        let at = place_target printing.now.definitions.now in
        Prints result out.old out.new ((opened_view meaning at rows.now part).ending) }
{
    match part {
        OpenPart::Span(span) => out.push_str(span_end(span)),
        OpenPart::Link => out.push_str("</a>"),
        OpenPart::Image(place) => {
            let linked = image_linked(printing, rows, place);
            push_image_end(out, text, printing, linked)
        }
        OpenPart::Silent => Ok(()),
    }
}

/// Where the image leads that the row at a place starts.
fn image_linked<'a, A: Allocator + Clone, T>(
    printing: &Printing<'a, A, T>,
    rows: &[InlineRow<'a>],
    place: usize,
) -> LinkTexts<'a>
    ensures { link_texts_view result ≡ image_target (place_target printing.now.definitions.now) (slice_index_or rows.now place Exit) }
{
    if place < rows.len() {
        if let InlineRow::EnterImage(target) = rows[place] {
            return linked_at(printing.definitions, target);
        }
    }
    NOWHERE
}

/// The start tag of a span.
fn span_start(span: Span) -> &'static str
    ensures { result.now ≡ span_start (span_view span) }
{
    match span {
        Span::Emphasis => "<em>",
        Span::Strong => "<strong>",
        Span::Strikethrough => "<del>",
        Span::Mark => "<mark>",
    }
}

/// The end tag of a span.
fn span_end(span: Span) -> &'static str
    ensures { result.now ≡ span_end (span_view span) }
{
    match span {
        Span::Emphasis => "</em>",
        Span::Strong => "</strong>",
        Span::Strikethrough => "</del>",
        Span::Mark => "</mark>",
    }
}
