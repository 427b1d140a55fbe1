//! What is read of a content so far (CommonMark appendix, phase 2).
//!
//! Rows are made from left to right. A label start and the bytes of a run are rows of text at
//! first. Where a label forms something, the row of its start becomes the start of a link or an
//! image, and the runs after it are told apart. The runs that are left are told apart at the end.
ghost use Rattle.std.specs.Prelude.{◌≡◌, OnOk, IfOk};
ghost use Rattle.std.specs.Prelude.{ℕ, false, List, ◌∷◌, ◌++◌, [], length, map, replicate};
ghost use Rattle.definition_text.specs.Content.{content_codes};
ghost use Rattle.definition_inline.specs.Inline.{Target, LinkTexts};
ghost use Rattle.definition_inline.specs.LabelEnd.{LinkTail, Leads, Calls};
ghost use Rattle.inline_rows.specs.InlineRows.{inline_rows};
ghost use Rattle.definition_inline.specs.Scan as scan;
ghost use Rattle.definition_inline.specs.Scan.{read_tokens, whole_text};
ghost use Rattle.definition_inline.specs.Spans.{Delimiters, Token, with_spans};
ghost use Rattle.inline_leaves.specs.Leaves.{leaf_items, parts_of, text_items};
ghost use Rattle.inline_runs.specs.View.{run_view};
ghost use Rattle.inline_rows.specs.View.{line_leaf, rows_view, target_texts};
ghost use Rattle.inline_rows.specs.declared.row.InlineRow.{InlineRow as SeenRow};
ghost use Rattle.inline_rows.specs.Container.{IsContainer, AreTold, AreWithin};
ghost use Rattle.inline_links.specs.Codes.{IsRest};
ghost use Rattle.inline_reading.specs.Shows.{Shows, ShowsThen, StartsBefore, KeepsStarts, IsSound, OpensAt, with_open_label, formed_last, unformed_last};

use crate::label::{LabelStart, OpenLabel};
use crate::room::{Room, RowRoom};
use inline_leaves::LeafPart;
use inline_rows::{InlineRow, LinkTarget, VerbatimText, tell_apart};
use inline_runs::{Pairing, Run};
use std::alloc::{AllocError, Allocator};
use std::mem::replace;

/// How many rows there is room for at first: few contents need more.
const ROWS: usize = 16;

/// The rows so far, and what is open.
#[derive(Drop)]
pub struct Reading<'a, A: Allocator> {
    rows: Vec<InlineRow<'a>, A>,
    /// The runs that aren't told apart yet.
    runs: Vec<Run, A>,
    /// The places of their first rows.
    slots: Vec<usize, A>,
    /// The label starts that are open, the innermost last.
    pub labels: Vec<OpenLabel<'a>, A>,
    /// Whether a link stands after the innermost of them.
    pub holds_link: bool,
    pairing: Box<Pairing<A>, A>,
}

impl<'a, A: Allocator + Clone> Reading<'a, A> {
    /// Before anything is read, in room that is left empty until the end.
    #[inline(always)]
    pub fn new(
        room: &mut Room<A>,
        row_room: &mut RowRoom<'a, A>,
    ) -> Result<Reading<'a, A>, AllocError>
        ensures nothing { (leads : Target → LinkTexts) (at : ℕ → LinkTexts) →
            IfOk result (λ reading. Shows leads at reading (scan.reading (scan.text [] false) [])) }
        ensures sound { IfOk result IsSound }
        ensures none { IfOk result (λ reading. reading.labels.items ≡ []) }
    {
        let mut runs = replace(&mut room.runs, Vec::new(room.alloc.clone()?));
        let mut slots = replace(&mut room.slots, Vec::new(room.alloc.clone()?));
        let mut rows = replace(&mut row_room.rows, Vec::new(room.alloc.clone()?));
        let mut labels = replace(&mut row_room.labels, Vec::new(room.alloc.clone()?));
        runs.clear();
        slots.clear();
        rows.clear();
        rows.reserve(ROWS)?;
        labels.clear();
        Ok(Reading {
            rows,
            runs,
            slots,
            labels,
            holds_link: false,
            pairing: room.take_pairing()?,
        })
    }

    /// The rows where nothing is left: label starts that are open form nothing. The room is given
    /// back, and the rows stand in it.
    #[inline(always)]
    pub fn finish(self, room: &mut Room<A>, row_room: &mut RowRoom<'a, A>) -> Result<(), AllocError>
        requires sound { IsSound self }
        ensures read { (leads : Target → LinkTexts) (at : ℕ → LinkTexts) (r : scan.Reading) → Shows leads at self.entry r →
            OnOk result (rows_view at row_room.new.rows.items ≡ inline_rows leads (with_spans (whole_text r).tokens)) }
    {
        let Reading {
            mut rows,
            runs,
            slots,
            labels,
            mut pairing,
            ..
        } = self;
        tell_inner(&mut rows, &runs, &slots, &mut pairing)?;
        row_room.rows = rows;
        row_room.labels = labels;
        room.runs = runs;
        room.slots = slots;
        room.pairing = Some(pairing);
        Ok(())
    }
}

impl<'a, A: Allocator> Reading<'a, A> {
    /// Bytes that are text.
    pub fn text(&mut self, text: &'a str) -> Result<(), AllocError>
        requires sound { IsSound self.old }
        ensures sound { OnOk result (IsSound self.new) }
        ensures from { KeepsStarts self.old result self.new }
        ensures read { ShowsThen self.old result self.new (read_tokens (text_items text.now)) }
    {
        self.rows.push(InlineRow::Text(text))?;
        Ok(())
    }

    /// Text that is printed as it is, in which an LF is a soft line break.
    pub fn verbatim(&mut self, verbatim: VerbatimText<'a>) -> Result<(), AllocError>
        requires sound { IsSound self.old }
        ensures sound { OnOk result (IsSound self.new) }
        ensures from { KeepsStarts self.old result self.new }
        ensures read { ShowsThen self.old result self.new (read_tokens (leaf_items (map line_leaf verbatim.entry.text.now))) }
    {
        self.rows.push(InlineRow::Verbatim(verbatim))?;
        Ok(())
    }

    /// A construct that holds no other.
    pub fn leaf(&mut self, part: LeafPart<'a>) -> Result<(), AllocError>
        requires sound { IsSound self.old }
        ensures sound { OnOk result (IsSound self.new) }
        ensures from { KeepsStarts self.old result self.new }
        ensures read { ShowsThen self.old result self.new (read_tokens (leaf_items (parts_of part.entry))) }
    {
        self.rows.push(InlineRow::Leaf(part))?;
        Ok(())
    }

    /// A run of this one byte (CommonMark 6.2).
    #[inline(always)]
    pub fn run(&mut self, run: Run, byte: &'a str) -> Result<(), AllocError>
        requires sound { IsSound self.old }
        requires byte { byte.now ≡ run.marker ∷ [] }
        ensures sound { OnOk result (IsSound self.new) }
        ensures from { KeepsStarts self.old result self.new }
        ensures read { ShowsThen self.old result self.new (read_tokens (Delimiters (run_view run) ∷ [])) }
    {
        self.slots.push(self.rows.len())?;
        self.runs.push(run)?;
        push_copies(&mut self.rows, InlineRow::Text(byte), run.size)?;
        Ok(())
    }

    /// A label start of these bytes, before the content from there on (CommonMark 6.3 and 6.4).
    pub fn start(
        &mut self,
        start: LabelStart,
        text: &'a str,
        from: &'a str,
    ) -> Result<(), AllocError>
        requires sound { IsSound self.old }
        requires text { OpensAt start text.now }
        ensures sound { OnOk result (IsSound self.new) }
        ensures from { (rest : List ℕ) → StartsBefore rest self.old → IsRest from.now rest → OnOk result (StartsBefore rest self.new) }
        ensures read { ShowsThen self.old result self.new (with_open_label start from.now) }
    {
        self.labels.push(OpenLabel {
            start,
            row: self.rows.len(),
            runs: self.runs.len(),
            from,
            holds_link: self.holds_link,
        })?;
        self.holds_link = false;
        self.rows.push(InlineRow::Text(text))?;
        Ok(())
    }

    /// The innermost label start that is open forms nothing (CommonMark 6.3).
    pub fn unform(&mut self)
        requires sound { IsSound self.old }
        ensures sound { IsSound self.new }
        ensures from { (rest : List ℕ) → StartsBefore rest self.old → StartsBefore rest self.new }
        ensures read { (leads : Target → LinkTexts) (at : ℕ → LinkTexts) (r : scan.Reading) → Shows leads at self.old r →
            Shows leads at self.new (unformed_last r) }
    {
        if let Some(label) = self.labels.pop() {
            self.holds_link = label.around_holds_link(self.holds_link);
        }
    }

    /// The innermost label start that is open forms a link or an image (CommonMark 6.3 and 6.4).
    pub fn form(&mut self, target: LinkTarget<'a>) -> Result<(), AllocError>
        requires sound { IsSound self.old }
        ensures sound { OnOk result (IsSound self.new) }
        ensures from { KeepsStarts self.old result self.new }
        ensures read { (leads : Target → LinkTexts) (at : ℕ → LinkTexts) (r : scan.Reading) (e : LinkTail) → target_texts at target.entry ≡ leads e.target →
            Shows leads at self.old r → OnOk result (Shows leads at self.new (formed_last (Leads e) r)) }
    {
        let Some(label) = self.labels.pop() else {
            return Ok(());
        };
        tell_inner(
            &mut self.rows,
            &self.runs[label.runs..],
            &self.slots[label.runs..],
            &mut self.pairing,
        )?;
        self.runs.truncate(label.runs);
        self.slots.truncate(label.runs);
        self.rows[label.row] = label.start.enter_row(target);
        self.holds_link = label.around_holds_link(label.start.makes_link(self.holds_link));
        self.rows.push(InlineRow::Exit)?;
        Ok(())
    }

    /// The innermost label start that is open forms a call of the footnote with this label. What
    /// was read of its text isn't kept.
    pub fn call(&mut self, name: &'a str) -> Result<(), AllocError>
        requires sound { IsSound self.old }
        ensures sound { OnOk result (IsSound self.new) }
        ensures from { KeepsStarts self.old result self.new }
        ensures read { (leads : Target → LinkTexts) (at : ℕ → LinkTexts) (r : scan.Reading) → Shows leads at self.old r →
            OnOk result (Shows leads at self.new (formed_last (Calls (content_codes name.now)) r)) }
    {
        let Some(label) = self.labels.pop() else {
            return Ok(());
        };
        self.rows.truncate(label.row);
        self.runs.truncate(label.runs);
        self.slots.truncate(label.runs);
        self.holds_link = label.around_holds_link(label.start.makes_link(self.holds_link));
        self.rows.push(InlineRow::Call(name))?;
        Ok(())
    }
}

/// Tells the runs of a container apart.
fn tell_inner<A: Allocator>(
    rows: &mut Vec<InlineRow<'_>, A>,
    runs: &[Run],
    slots: &[usize],
    pairing: &mut Pairing<A>,
) -> Result<(), AllocError>
    requires { AreWithin runs.now slots.now (length rows.old.items) }
    ensures length { length rows.new.items ≡ length rows.old.items }
    ensures told { (leads : Target → LinkTexts) (at : ℕ → LinkTexts) (outer inner : List SeenRow) (tokens : List Token) →
        rows.old.items ≡ outer ++ inner → IsContainer leads at inner (length outer) runs.now slots.now tokens →
        OnOk result (AreTold leads at outer tokens rows.new.items) }
{
    tell_apart(rows, runs, slots, pairing)
}

/// This row so many times.
fn push_copies<'a, A: Allocator>(
    rows: &mut Vec<InlineRow<'a>, A>,
    row: InlineRow<'a>,
    count: usize,
) -> Result<(), AllocError>
    ensures { OnOk result (rows.new.items ≡ rows.old.items ++ replicate count row.entry) }
{
    for _i in 0..count {
        rows.push(row)?;
    }
    Ok(())
}
