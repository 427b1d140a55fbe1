//! A run is read before it is known what it becomes. So each of its bytes is a row of text at first.
//! When its container ends, the first of these rows become ends of spans, the last ones starts of
//! spans, and those between stay text. Strong emphasis takes two bytes and needs one row, so some
//! rows are left over, which become empty text.
ghost use Rattle.std.specs.Prelude.{◌≡◌, ◌≤◌, ◌++◌, ℕ, List, length, map, OnOk, OnErr};
ghost use Rattle.definition_inline.specs.Inline.{Target, LinkTexts};
ghost use Rattle.definition_inline.specs.Spans.{Token};
ghost use Rattle.inline_runs.specs.Paired.{rows_of};
ghost use Rattle.inline_rows.specs.View.{rows_view};
ghost use Rattle.inline_rows.specs.declared.row.InlineRow.{InlineRow};
ghost use Rattle.inline_rows.specs.Container.{AreBytes, IsContainer, AreWithin, AreTold};
ghost use Rattle.inline_rows.specs.Told.{start_row, told_rows, rows_needed};

use crate::row::InlineRow;
use inline_runs::{Pair, Pairing, Run, RunSpans, pair_runs};
use std::alloc::{AllocError, Allocator};

/// Tells the runs of a container apart: which of their bytes end and start spans. The slot of a run
/// is the place of its first row. Without memory the rows stay as they were.
pub fn tell_apart<A: Allocator>(
    rows: &mut [InlineRow<'_>],
    runs: &[Run],
    slots: &[usize],
    pairing: &mut Pairing<A>,
) -> Result<(), AllocError>
    requires { AreWithin runs.now slots.now (length rows.old) }
    ensures length { length rows.new ≡ length rows.old }
    ensures told { (leads : Target → LinkTexts) (at : ℕ → LinkTexts) (outer inner : List InlineRow) (tokens : List Token) → rows.old ≡ outer ++ inner
        → IsContainer leads at inner (length outer) runs.now slots.now tokens → OnOk result (AreTold leads at outer tokens rows.new) }
    ensures refused { OnErr result (rows.new ≡ rows.old) }
{
    if runs.is_empty() {
        return Ok(());
    }
    pair_runs(runs, pairing)?;
    for (place, run) in runs.iter().enumerate() {
        let start = slots[place];
        tell_run(
            &mut rows[start..start + run.size],
            run.marker,
            pairing.spans(place),
        );
    }
    Ok(())
}

/// Writes what a run of this byte becomes over its rows.
fn tell_run(rows: &mut [InlineRow<'_>], marker: u8, spans: RunSpans<'_>)
    requires { rows_needed spans ≤ length rows.old }
    ensures length { length rows.new ≡ length rows.old }
    ensures told { (leads : Target → LinkTexts) (at : ℕ → LinkTexts) → AreBytes marker (length rows.old) rows.old
        → rows_view at rows.new ≡ told_rows leads (rows_of marker spans.entry) }
{
    let text = spans.closed.len();
    let left_over = text + spans.text;
    let opened = rows.len() - spans.opened.len();
    rows[..text].fill(InlineRow::Exit);
    rows[left_over..opened].fill(InlineRow::Text(""));
    start_spans(&mut rows[opened..], marker, spans.opened);
}

/// Writes the starts of the spans of these pairs of runs of one byte over rows.
fn start_spans(rows: &mut [InlineRow<'_>], marker: u8, opened: &[Pair])
    requires { length rows.old ≡ length opened.now }
    ensures { rows.new ≡ map (start_row marker) opened.now }
{
    for (place, pair) in opened.iter().enumerate() {
        rows[place] = InlineRow::EnterSpan(pair.span(marker));
    }
}
