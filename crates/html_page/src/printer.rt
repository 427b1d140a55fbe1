//! Rows to HTML.
ghost use Rattle.std.specs.Prelude.{◌≡◌, ◌≤◌, ◌<◌, ◌+◌, ◌-◌, ◌*◌, ◌++◌, List, IfOk, OnOk, string_bytes, length, drop, take, vec_capacity, vec_len};
ghost use Rattle.markdown_options.specs.LineEndings.{ending_bytes};
ghost use Rattle.definition_inline.specs.Targets.{Targets};
ghost use Rattle.definition_text.specs.BlockLines.{BlockLine};
ghost use Rattle.definition_block.specs.Tree.{Blocks};
ghost use Rattle.std.specs.List.{fold};
ghost use Rattle.html_bytes.specs.Layout.{page_layout, with_footnotes, lay};
ghost use Rattle.html_bytes.specs.Html.{document_bytes, last_piece};
ghost use Rattle.block_rows.specs.Rows.{rows_size, row_size, rows_of, row_value, rows_value};
ghost use Rattle.text_pieces.specs.Pieces.{piece_lines};
ghost use Rattle.html_contents.specs.Texts.{KnowsTargets, document_by};
ghost use Rattle.html_looseness.specs.Printable.{IsPrintableRow, ArePrintable, CanBePrinted};
ghost use Rattle.html_rows.specs.Printing.{ends_blank_rows, is_blank_row, print_row, print_all, blank_page};
ghost use Rattle.html_page.specs.PrinterView.{printer_view};
ghost use Rattle.html_leaves.specs.Prints.{KeepsEnding, page_view};

use crate::leaf_block::print_leaf_block;
use block_rows::Row;
use html_blocks::{Containers, LeafPrinter};
use html_contents::Texts;
use markdown_compile_options::CompileOptions;
use markdown_options::{LineEnding, Tables};
use std::alloc::{AllocError, Allocator};
use text_pieces::Piece;

/// A page that is being printed, and what is open on it.
#[derive(Drop)]
pub(crate) struct Printer<'t, A: Allocator + Clone> {
    pub(crate) leaves: LeafPrinter<'t, A>,
    pub(crate) containers: Containers<A>,
}

impl<'t, A: Allocator + Clone> Printer<'t, A> {
    /// A printer with an empty page, before these rows.
    fn new(
        alloc: A,
        room: usize,
        default_ending: LineEnding,
        rows: &[Row],
    ) -> Result<Printer<'t, A>, AllocError>
        ensures default { IfOk result (λ printer. printer.leaves.page.default_ending ≡ default_ending) }
        ensures blank { (ls : List BlockLine) → IfOk result (λ printer. printer_view printer ≡ blank_page (rows_value rows.now ls).rows) }
    {
        let containers = Containers::new(alloc.clone()?, rows)?;
        Ok(Printer {
            leaves: LeafPrinter::new(alloc, room, default_ending)?,
            containers,
        })
    }

    /// Prints a row. A block takes its lines from the front of these. Answers how many it took.
    fn row<T: Tables>(
        &mut self,
        texts: &Texts<'t, '_, T, A>,
        row: Row,
        lines: &[Piece<'t>],
    ) -> Result<usize, AllocError>
        requires enough { row_size row ≤ length lines.now }
        requires printable { IsPrintableRow (row_value row (piece_lines lines.now)) }
        ensures default { KeepsEnding self.old.leaves.page self.new.leaves.page }
        ensures size { IfOk result (λ taken. taken ≡ row_size row) }
        ensures printed { (ds : Targets) → KnowsTargets texts.now ds →
            let d = document_by T.Tables texts.now ds in let value = row_value row (piece_lines lines.now) in
            IfOk result (λ taken. printer_view self.new ≡ print_row d (ending_bytes self.old.leaves.page.default_ending) (printer_view self.old) value) }
    {
        match row {
            Row::Ending(ending) => {
                self.leaves.line_ending(self.containers.level, ending)?;
                self.containers.level.pass(row);
                Ok(0)
            }
            Row::Blank(_) => {
                self.containers.level.pass(row);
                Ok(0)
            }
            Row::EnterQuote => {
                self.containers.enter_quote(&mut self.leaves.page)?;
                Ok(0)
            }
            Row::EnterFootnote => {
                self.containers.enter_footnote(&mut self.leaves.page)?;
                Ok(1)
            }
            Row::EnterItem { number, .. } => {
                self.containers.enter_item(&mut self.leaves.page, number)?;
                Ok(0)
            }
            Row::Exit => {
                self.containers.exit(&mut self.leaves.page)?;
                Ok(0)
            }
            _ => {
                print_leaf_block(&mut self.leaves, texts, row, self.containers.level, lines)?;
                self.containers.level.pass(row);
                Ok(row.size())
            }
        }
    }

    /// Prints rows, whose blocks take their lines from the front of these. Answers how many they took.
    fn rows<T: Tables>(
        &mut self,
        texts: &Texts<'t, '_, T, A>,
        rows: &[Row],
        pieces: &[Piece<'t>],
    ) -> Result<usize, AllocError>
        requires enough { rows_size rows.now ≤ length pieces.now }
        requires printable { ArePrintable (rows_value rows.now (piece_lines pieces.now)).rows }
        ensures default { KeepsEnding self.old.leaves.page self.new.leaves.page }
        ensures size { IfOk result (λ taken. taken ≡ rows_size rows.now) }
        ensures left { IfOk result (λ taken. (rows_value rows.now (piece_lines pieces.now)).left ≡ piece_lines (drop taken pieces.now)) }
        ensures printed { (ds : Targets) → KnowsTargets texts.now ds →
            let d = document_by T.Tables texts.now ds in
            IfOk result (λ taken. printer_view self.new ≡ print_all d (ending_bytes self.old.leaves.page.default_ending) (printer_view self.old)
            (rows_value rows.now (piece_lines pieces.now)).rows) }
    {
        let mut taken = 0;
        for row in rows {
            taken += self.row(texts, *row, &pieces[taken..])?;
        }
        Ok(taken)
    }
    /// Prints all of these rows, part by part, and gives the memory of each part back.
    fn parts<T: Tables>(
        &mut self,
        texts: &Texts<'t, '_, T, A>,
        mut rows: Vec<Row, A>,
        mut pieces: Vec<Piece<'t>, A>,
    ) -> Result<(), AllocError>
        requires enough { rows_size rows.items ≤ vec_len pieces }
        requires printable { ArePrintable (rows_value rows.items (piece_lines pieces.items)).rows }
        ensures default { KeepsEnding self.old.leaves.page self.new.leaves.page }
        ensures printed { (ds : Targets) → KnowsTargets texts.now ds →
            let d = document_by T.Tables texts.now ds in
            OnOk result (printer_view self.new ≡ print_all d (ending_bytes self.old.leaves.page.default_ending) (printer_view self.old)
            (rows_value rows.items (piece_lines pieces.entry.items)).rows) }
    {
        while !rows.is_empty() {
            let count = part(rows.len());
            let taken = self.rows(texts, &rows[..count], &pieces)?;
            remove_front(&mut rows, count);
            remove_front(&mut pieces, taken);
        }
        Ok(())
    }

    /// Ends the page, on a fresh line if the last row is the ending of a blank line.
    fn finish(self, options: &CompileOptions, blank: bool) -> Result<String<A>, AllocError>
        ensures { let page = self.entry.leaves.page in
            let default = ending_bytes page.default_ending in
            IfOk result (λ html. string_bytes html ≡ with_footnotes options.now default (fold (lay options.now default) (page_view page) (last_piece blank))) }
    {
        let Printer { mut leaves, .. } = self;
        if blank {
            leaves.page.fresh()?;
        }
        leaves.finish(options)
    }
}

/// The HTML of a block tree by its rows, whose blocks take their lines from `pieces`. Its texts are
/// read by the labels and links of all definitions of the document.
///
/// Items are put into lists here (CommonMark 5.3), and the footnotes that are called stand at the
/// end. Room is made for `room` bytes of the page's text at once. Rows are printed part by part, and
/// the memory of each part is given back before the next, which the page then needs.
pub fn print_rows<'t, T: Tables, A: Allocator + Clone>(
    alloc: A,
    room: usize,
    default_ending: LineEnding,
    texts: &Texts<'t, '_, T, A>,
    rows: Vec<Row, A>,
    pieces: Vec<Piece<'t>, A>,
) -> Result<String<A>, AllocError>
    requires enough { rows_size rows.items ≤ vec_len pieces }
    requires printable { ArePrintable (rows_value rows.items (piece_lines pieces.items)).rows }
    ensures { (ds : Targets) → KnowsTargets texts.now ds →
        (bs : Blocks) → (rows_value rows.items (piece_lines pieces.entry.items)).rows ≡ rows_of bs → CanBePrinted bs →
        let d = document_by T.Tables texts.now ds in
        IfOk result (λ html. string_bytes html ≡ page_layout texts.now.options.now.compile (ending_bytes default_ending) (document_bytes d bs)) }
{
    let blank = ends_blank(&rows);
    let mut printer = Printer::new(alloc, room, default_ending, &rows)?;
    printer.parts(texts, rows, pieces)?;
    printer.finish(&texts.options.compile, blank)
}

/// From so many rows on they are printed part by part.
const MANY_ROWS: usize = 4096;

/// How many rows of so many are printed before their memory is given back: two fifths, or all of them
/// if they are few. So rows and page together never have much more than the page in the end, and each
/// row is moved one and a half times.
fn part(rows: usize) -> usize
    requires { 1 ≤ rows }
    ensures some { 1 ≤ result }
    ensures within { result ≤ rows }
    ensures few { rows < MANY_ROWS → result ≡ rows }
    ensures share { rows ≤ 3 * result }
    ensures rest { MANY_ROWS ≤ rows → 2 * result ≤ rows }
{
    if rows < MANY_ROWS { rows } else { rows / 5 * 2 }
}

/// Removes so many items at the front, and gives their memory back.
fn remove_front<T: Copy, A: Allocator>(items: &mut Vec<T, A>, count: usize)
    requires { count ≤ vec_len items.old }
    ensures items { items.new.items ≡ drop count items.old.items }
    ensures memory { count ≡ vec_len items.old → vec_capacity items.new ≡ 0 }
{
    let left = items.len() - count;
    move_to_front(items, count);
    items.truncate(left);
    items.shrink_to_fit();
}

/// Moves the items from a place on to the front. Each step reads and writes apart, so that it is one
/// copy of bytes, where `copy_within` would copy field by field.
fn move_to_front<T: Copy>(items: &mut [T], from: usize)
    requires { from ≤ length items.old }
    ensures len { length items.new ≡ length items.old }
    ensures moved { take (length items.old - from) items.new ≡ drop from items.old }
{
    if from == 0 {
        return;
    }
    let mut at = 0;
    'by_part: while from < items.len() - at {
        at += copy_to_front(&mut items[at..], from);
    }
}

/// Copies items from a place on over those at the front, at most as many as are before that place.
/// Answers how many.
fn copy_to_front<T: Copy>(items: &mut [T], from: usize) -> usize
    requires some { 1 ≤ from }
    requires within { from < length items.old }
    ensures some { 1 ≤ result }
    ensures within { result + from ≤ length items.old }
    ensures copied { items.new ≡ take result (drop from items.old) ++ drop result items.old }
{
    let (front, back) = items.split_at_mut(from);
    let count = front.len().min(back.len());
    front[..count].copy_from_slice(&back[..count]);
    count
}

/// Whether the last row is the ending of a blank line.
fn ends_blank(rows: &[Row]) -> bool
    ensures { (ls : List BlockLine) → result ≡ ends_blank_rows (rows_value rows.now ls).rows }
{
    match rows.last() {
        None => false,
        Some(row) => is_blank_ending(*row),
    }
}

fn is_blank_ending(row: Row) -> bool
    ensures { (ls : List BlockLine) → result ≡ is_blank_row (row_value row ls) }
{
    matches!(row, Row::Blank(Some(_)))
}
