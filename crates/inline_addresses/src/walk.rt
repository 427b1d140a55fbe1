//! Rows from left to right: the text of rows that stand side by side is one run, in which email
//! addresses are looked for where it stands in no link (GFM 6.9).
ghost use Rattle.std.specs.Prelude.{◌≡◌, ◌^◌, ◌+◌, ◌-◌, ◌<◌, ◌≤◌, ◌++◌, ◌∷◌, [], ℕ, List, IfOk, MatchOption, OnOk, drop, length, slice_index, string_bytes};
ghost use Rattle.std.specs.Prelude.{take};
ghost use Rattle.std.specs.List.{flat_map};
ghost use Rattle.std.specs.Option.{option_map};
ghost use Rattle.std.specs.Str.{IsCharBoundary};
ghost use Rattle.definition_text.specs.Ascii.{line_feed};
ghost use Rattle.definition_inline.specs.GfmAutolinkLiteral.{with_literals};
ghost use Rattle.definition_inline.specs.Inline.{Target, LinkTexts, Inlines};
ghost use Rattle.inline_rows.specs.InlineRows as seen;
ghost use Rattle.inline_rows.specs.View.{data_rows, lines_rows, row_view, rows_view};
ghost use Rattle.inline_addresses.specs.Addresses.{literal_text, part_text, row_depth, row_linked};
ghost use Rattle.inline_addresses.specs.Addresses.{row_text, rows_text, run_linked, text_or_end, verbatim_text, walk_rows, EndsLine, IsNext};

use inline_leaves::LeafPart;
use inline_leaves::cut::{rest_from, text_before, text_between};
use inline_literals::first_address;
use inline_rows::InlineRow;
use markdown_options::LineEnding;
use std::alloc::{AllocError, Allocator};
use text_search::{BytePair, next_of};

/// LF, which is told without tables.
const LINE_FEED: BytePair = BytePair {
    first: b'\n',
    second: b'\n',
};

/// Where a walk over the rows of a content stands.
#[derive(Drop)]
struct Walk<'a, A: Allocator> {
    /// What is left of the rows' text, from the run on that stands before the next row.
    text: &'a str,
    /// How many bytes this run has so far.
    size: usize,
    /// How many parts are open, counted from the link on in which the next row stands; none is where
    /// it stands in no link.
    depth: usize,
    /// The rows so far.
    rows: Vec<InlineRow<'a>, A>,
}

/// Writes the texts of rows, and a line feed for each row that is something else.
pub fn push_texts<A: Allocator>(
    text: &mut String<A>,
    rows: &[InlineRow<'_>],
) -> Result<(), AllocError>
    ensures { OnOk result (string_bytes text.new ≡ string_bytes text.old ++ rows_text rows.now) }
{
    for row in rows {
        push_text(text, *row)?;
    }
    Ok(())
}

/// Writes the text of a row, or a line feed.
fn push_text<A: Allocator>(text: &mut String<A>, row: InlineRow<'_>) -> Result<(), AllocError>
    ensures { OnOk result (string_bytes text.new ≡ string_bytes text.old ++ text_or_end (row_text row.entry)) }
{
    text.push_str(text_of(row).unwrap_or("\n"))?;
    Ok(())
}

/// The text that a row stands for, if that is all but soft line breaks, each of which is an LF of
/// verbatim text.
pub(crate) fn text_of<'a>(row: InlineRow<'a>) -> Option<&'a str>
    ensures { option_map (λ text. text.now) result ≡ row_text row.entry }
{
    match row {
        InlineRow::Text(text) => Some(text),
        InlineRow::Verbatim(verbatim) => Some(verbatim.text),
        InlineRow::Leaf(part) => text_of_part(part),
        InlineRow::Spelled(_)
        | InlineRow::EnterSpan(_)
        | InlineRow::EnterLink(_)
        | InlineRow::EnterImage(_)
        | InlineRow::Call(_)
        | InlineRow::Exit => None,
    }
}

/// The text that a construct stands for which holds no other, if that is all.
fn text_of_part<'a>(part: LeafPart<'a>) -> Option<&'a str>
    ensures { option_map (λ text. text.now) result ≡ part_text part.entry }
{
    match part {
        LeafPart::Unclosed(text) => Some(text),
        LeafPart::Spaces => Some(""),
        LeafPart::Escape(byte) if byte.is_empty() => Some(""),
        _ => None,
    }
}

/// The rows of a content with the email addresses in its text, and with the literals in the text of
/// links as text, where these are the texts of its rows (GFM 6.9).
pub fn linked_rows<'a, A: Allocator>(
    alloc: A,
    text: &'a str,
    rows: &[InlineRow<'a>],
) -> Result<Vec<InlineRow<'a>, A>, AllocError>
    requires { text.now ≡ rows_text rows.now }
    ensures { (leads : Target → LinkTexts) (at : ℕ → LinkTexts) (kids : Inlines) → rows_view at rows.now ≡ seen.inline_rows leads kids →
        IfOk result (λ linked. rows_view at linked.items ≡ seen.inline_rows leads (with_literals [] kids)) }
{
    let mut walk = Walk {
        text,
        size: 0,
        depth: 0,
        rows: Vec::new(alloc),
    };
    for row in rows {
        walk.step(*row)?;
    }
    walk.end_run()?;
    Ok(walk.rows)
}

impl<'a, A: Allocator> Walk<'a, A> {
    /// The next row, whose text comes after the run.
    fn step(&mut self, row: InlineRow<'a>) -> Result<(), AllocError>
        requires next { IsNext self.old.text.now self.old.size (text_or_end (row_text row)) }
        requires depth { self.old.depth < 2 ^ 64 - 1 }
        ensures depth { OnOk result (self.new.depth ≤ self.old.depth + 1) }
        ensures within { OnOk result (self.new.size ≤ length self.new.text.now) }
        ensures text { OnOk result (drop self.new.size self.new.text.now
            ≡ drop (length (text_or_end (row_text row.entry))) (drop self.old.size self.old.text.now)) }
        ensures rows { (at : ℕ → LinkTexts) (rest : List seen.InlineRow) →
            OnOk result (walk_rows at self.new rest ≡ walk_rows at self.old (row_view at row.entry ++ rest)) }
    {
        if let Some(text) = verbatim_of(row) {
            return self.lines(text);
        }
        match text_of(row) {
            Some(text) => {
                self.size += text.len();
                Ok(())
            }
            None => self.other(row),
        }
    }

    /// Verbatim text. Each LF in it is a row that is no text, so that it ends the run.
    fn lines(&mut self, text: &'a str) -> Result<(), AllocError>
        requires next { IsNext self.old.text.now self.old.size text.now }
        requires depth { self.old.depth < 2 ^ 64 - 1 }
        ensures depth { OnOk result (self.new.depth ≤ self.old.depth + 1) }
        ensures within { OnOk result (self.new.size ≤ length self.new.text.now) }
        ensures text { OnOk result (drop self.new.size self.new.text.now ≡ drop (length text.now) (drop self.old.size self.old.text.now)) }
        ensures rows { (at : ℕ → LinkTexts) (rest : List seen.InlineRow) →
            OnOk result (walk_rows at self.new rest ≡ walk_rows at self.old (lines_rows text.now ++ rest)) }
    {
        let mut rest = text;
        while let Some(end) = first_line_feed(rest.as_bytes()) {
            self.size += end;
            self.other(InlineRow::Leaf(LeafPart::LineEnd(LineEnding::LineFeed)))?;
            rest = rest_from(rest, end + 1);
        }
        self.size += rest.len();
        Ok(())
    }

    /// A row that is no text.
    fn other(&mut self, row: InlineRow<'a>) -> Result<(), AllocError>
        requires next { IsNext self.old.text.now self.old.size (line_feed ∷ []) }
        requires none { row_text row ≡ None }
        requires depth { self.old.depth < 2 ^ 64 - 1 }
        ensures depth { OnOk result (self.new.depth ≤ self.old.depth + 1) }
        ensures open { OnOk result (self.new.depth ≡ row_depth self.old.depth row.entry) }
        ensures size { OnOk result (self.new.size ≡ 0) }
        ensures within { OnOk result (self.new.size ≤ length self.new.text.now) }
        ensures text { OnOk result (drop self.new.size self.new.text.now ≡ drop 1 (drop self.old.size self.old.text.now)) }
        ensures rows { (at : ℕ → LinkTexts) (rest : List seen.InlineRow) →
            OnOk result (walk_rows at self.new rest ≡ walk_rows at self.old (row_view at row.entry ++ rest)) }
    {
        self.end_run()?;
        self.rows.push(linked_row(self.depth, row))?;
        self.text = text_after(self.text, self.size);
        self.size = 0;
        self.depth = depth_after(self.depth, row);
        Ok(())
    }

    /// Writes the run of text: with its email addresses, where it stands in no link.
    fn end_run(&mut self) -> Result<(), AllocError>
        requires { IsCharBoundary self.old.text.now self.old.size }
        ensures text { self.new.text.now ≡ self.old.text.now }
        ensures size { self.new.size ≡ self.old.size }
        ensures depth { self.new.depth ≡ self.old.depth }
        ensures rows { (at : ℕ → LinkTexts) →
            OnOk result (rows_view at self.new.rows.items
            ≡ rows_view at self.old.rows.items ++ run_linked self.old.depth (take self.old.size self.old.text.now)) }
    {
        let run = text_before(self.text, self.size);
        if self.depth == 0 {
            push_addresses(&mut self.rows, run)
        } else {
            self.rows.push(InlineRow::Text(run))?;
            Ok(())
        }
    }
}

/// The place of the first LF, if there is one.
fn first_line_feed(bytes: &[u8]) -> Option<usize>
    ensures { MatchOption result (lines_rows bytes.now ≡ data_rows bytes.now) (EndsLine bytes.now) }
{
    let end = next_of(bytes, LINE_FEED);
    if end < bytes.len() { Some(end) } else { None }
}

/// Writes a run of text with the email addresses in it (GFM 6.9).
fn push_addresses<'a, A: Allocator>(
    rows: &mut Vec<InlineRow<'a>, A>,
    run: &'a str,
) -> Result<(), AllocError>
    ensures { (at : ℕ → LinkTexts) → OnOk result (rows_view at rows.new.items ≡ rows_view at rows.old.items ++ run_linked 0 run.now) }
{
    let mut rest = run;
    while let Some(found) = first_address(rest.as_bytes()) {
        rows.push(InlineRow::Text(text_before(rest, found.start)))?;
        rows.push(InlineRow::Leaf(LeafPart::Literal {
            kind: found.kind,
            text: text_between(rest, found.start, found.end),
        }))?;
        rest = rest_from(rest, found.end);
    }
    rows.push(InlineRow::Text(rest))?;
    Ok(())
}

/// The text after an ASCII byte.
fn text_after(text: &str, at: usize) -> &str
    requires within { at < length text.now }
    requires ascii { slice_index text.now at < 128 }
    ensures { result.now ≡ drop (at + 1) text.now }
{
    &text[at + 1..]
}

/// A row that is no text: in a link a literal is text (CommonMark 6.3).
fn linked_row<'a>(depth: usize, row: InlineRow<'a>) -> InlineRow<'a>
    ensures { (at : ℕ → LinkTexts) → row_view at result ≡ flat_map (row_linked depth) (row_view at row.entry) }
{
    if depth == 0 {
        return row;
    }
    match literal_of(row) {
        Some(text) => InlineRow::Text(text),
        None => row,
    }
}

/// The text of a row that may hold soft line breaks, if a row is one (CommonMark 6.8).
fn verbatim_of<'a>(row: InlineRow<'a>) -> Option<&'a str>
    ensures { option_map (λ text. text.now) result ≡ verbatim_text row.entry }
{
    match row {
        InlineRow::Verbatim(verbatim) => Some(verbatim.text),
        _ => None,
    }
}

/// The text of a literal, if a row is one (GFM 6.9).
pub(crate) fn literal_of<'a>(row: InlineRow<'a>) -> Option<&'a str>
    ensures { option_map (λ text. text.now) result ≡ literal_text row.entry }
{
    match row {
        InlineRow::Leaf(LeafPart::Literal { text, .. }) => Some(text),
        _ => None,
    }
}

/// How many parts are open after a row that is no text, counted from the link on in which it stands.
fn depth_after(depth: usize, row: InlineRow<'_>) -> usize
    requires { depth < 2 ^ 64 - 1 }
    ensures depth { result ≡ row_depth depth row.entry }
    ensures within { result ≤ depth + 1 }
{
    match row {
        InlineRow::EnterLink(_) => depth + 1,
        InlineRow::EnterSpan(_) | InlineRow::EnterImage(_) if depth > 0 => depth + 1,
        InlineRow::Exit if depth > 0 => depth - 1,
        _ => depth,
    }
}
