//! Tables (GFM 4.10).
//!
//!     line       ::= (white* bar)? cell (bar cell)* (bar white*)?
//!     cell       ::= ('\' '\' | '\' '|' | no_bar)*
//!     delimiters ::= a line, with a bar or a colon, whose cells are white* ':'? '-'+ ':'? white*
ghost use Rattle.std.specs.Prelude.{◌≡◌, ◌==◌, ◌∷◌, [], false, length, OnOk, unwrap_or};
ghost use Rattle.std.specs.List.{list_any};
ghost use Rattle.markdown_options.specs.declared.beside.Kind.TheVariants.{Whitespace};
ghost use Rattle.definition_text.specs.Columns.{is_blank as are_white, trim};
ghost use Rattle.definition_block.specs.GfmTable as spec;
ghost use Rattle.text_pieces.specs.Pieces.{piece_line};
ghost use Rattle.block_cells.specs.GfmTable.{bar_at, begins_delimiters, cell_view, may_be_delimiters, parts_if};

use markdown_options::{AlignKind, Kind};
use std::alloc::{AllocError, Allocator};
use text_bytes::{is_blank, may_escape, split_run, white_size};
use text_lines::trim;
use text_pieces::Piece;
use text_search::{BytePair, next_of};

/// A bar, and what may escape one.
const BAR_OR_BACKSLASH: BytePair = BytePair {
    first: b'|',
    second: b'\\',
};

/// A cell of a line (GFM 4.10).
#[derive(Clone, Copy)]
pub struct Cell<'a> {
    /// What stands between its bars, and what stands before that.
    pub line: Piece<'a>,
    /// The kind of the character after it in the text.
    pub after: Kind,
}

/// The cells of what is left of a line.
#[derive(Clone, Copy)]
pub struct Cells<'a> {
    rest: Option<Piece<'a>>,
}

impl<'a> Cells<'a> {
    ghost use Rattle.block_cells.specs.GfmTable.{cells_left};

    /// The cells of a line (GFM 4.10).
    pub fn new(line: Piece<'a>) -> Cells<'a>
        ensures { cells_left result ≡ spec.cells line.entry.before (piece_line line.entry).codes }
    {
        let (first, after) = split_part(line);
        if is_blank_part(first) {
            Cells { rest: after }
        } else {
            Cells { rest: Some(line) }
        }
    }
}

impl<'a> Iterator for Cells<'a> {
    ghost use Rattle.block_cells.specs.GfmTable.{cells_left, cell_view};
    ghost use Rattle.std.specs.Iterator.{YieldsFirstBy, item_count};

    type Item = Cell<'a>;

    ghost next_gives = { YieldsFirstBy cell_view cells_left };

    ghost remaining = { item_count cells_left };

    fn next(&mut self) -> Option<Cell<'a>> {
        let Some(line) = self.rest else {
            return None;
        };
        let (part, after) = split_part(line);
        self.rest = after;
        if after.is_none() && is_blank_part(part) {
            return None;
        }
        Some(part)
    }
}

/// The first part of a line, and what follows its bar.
#[inline(always)]
fn split_part(line: Piece<'_>) -> (Cell<'_>, Option<Piece<'_>>)
    ensures { spec.parts line.entry.before false (piece_line line.entry).codes ≡ cell_view result.0 ∷ parts_if result.1 }
{
    let text = line.text;
    let place = bar_place(text.as_bytes());
    if place < text.len() {
        let others = Piece {
            text: &text[place + 1..],
            owed: 0,
            ending: line.ending,
            before: Kind::Punctuation,
        };
        (part(line, &text[..place], Kind::Punctuation), Some(others))
    } else {
        (part(line, text, Kind::Whitespace), None)
    }
}

/// The part at the front of a line that is this text.
#[inline(always)]
fn part<'a>(line: Piece<'a>, text: &'a str, after: Kind) -> Cell<'a>
    ensures line { result.line.text.now ≡ text.now }
    ensures owed { result.line.owed ≡ line.entry.owed }
    ensures before { result.line.before ≡ line.entry.before }
    ensures after { result.after ≡ after }
{
    Cell {
        line: Piece {
            text,
            owed: line.owed,
            ending: None,
            before: line.before,
        },
        after,
    }
}

/// Where the first bar stands that divides cells, or the end.
fn bar_place(bytes: &[u8]) -> usize
    ensures { result ≡ bar_at false bytes.now }
{
    let place = next_of(bytes, BAR_OR_BACKSLASH);
    if place < bytes.len() && bytes[place] == b'\\' {
        place + bar_place_one_by_one(&bytes[place..])
    } else {
        place
    }
}

/// The same, one byte after another.
fn bar_place_one_by_one(bytes: &[u8]) -> usize
    ensures { result ≡ bar_at false bytes.now }
{
    let mut escaped = false;
    for (i, b) in bytes.iter().enumerate() {
        if is_bar(escaped, *b) {
            return i;
        }
        escaped = may_escape(escaped, *b);
    }
    bytes.len()
}

fn is_bar(escaped: bool, byte: u8) -> bool
    ensures { result ≡ spec.is_bar escaped byte }
{
    byte == b'|' && !escaped
}

fn is_blank_part(part: Cell<'_>) -> bool
    ensures { result ≡ are_white (piece_line part.entry.line).codes }
{
    is_blank(part.line.text.as_bytes())
}

/// Whether a line has so many cells.
pub fn has_cells(line: Piece<'_>, count: usize) -> bool
    ensures { result ≡ (length (spec.cells line.entry.before (piece_line line.entry).codes) == count) }
{
    let mut missing = count;
    let mut cells = Cells::new(line);
    while let Some(_) = cells.next() {
        if missing == 0 {
            return false;
        }
        missing -= 1;
    }
    missing == 0
}

/// Makes `aligns` how the columns of a table are aligned, where a line is a row of delimiters;
/// otherwise it is empty then (GFM 4.10).
pub fn read_delimiters<A: Allocator>(
    aligns: &mut Vec<AlignKind, A>,
    line: Piece<'_>,
) -> Result<(), AllocError>
    ensures { OnOk result (aligns.new.items ≡ unwrap_or (spec.delimiters (piece_line line.entry).codes) []) }
{
    aligns.clear();
    if !may_be_delimiters(line) || !has_bar_or_colon(line) {
        return Ok(());
    }
    let mut cells = Cells::new(after_white(line));
    while let Some(cell) = cells.next() {
        match delimiter(trim(cell.line.text)) {
            Some(align) => aligns.push(align)?,
            None => {
                aligns.clear();
                return Ok(());
            }
        }
    }
    Ok(())
}

/// Whether the first byte after the spaces and tabs of a line is `-`, `|` or `:`. No other line is
/// a row of delimiters.
#[inline(always)]
fn may_be_delimiters(line: Piece<'_>) -> bool
    ensures { result ≡ may_be_delimiters (piece_line line.entry).codes }
{
    let bytes = line.text.as_bytes();
    let indent = white_size(bytes);
    indent < bytes.len() && begins_delimiters(bytes[indent])
}

#[inline(always)]
fn begins_delimiters(byte: u8) -> bool
    ensures { result ≡ begins_delimiters byte }
{
    byte == b'-' || is_bar_or_colon(byte)
}

/// A line as after white space.
fn after_white(line: Piece<'_>) -> Piece<'_>
    ensures codes { (piece_line result).codes ≡ (piece_line line.entry).codes }
    ensures before { result.before ≡ Whitespace }
{
    Piece {
        before: Kind::Whitespace,
        ..line
    }
}

fn has_bar_or_colon(line: Piece<'_>) -> bool
    ensures { result ≡ list_any spec.is_bar_or_colon (piece_line line.entry).codes }
{
    holds_bar_or_colon(line.text.as_bytes())
}

fn holds_bar_or_colon(bytes: &[u8]) -> bool
    ensures { result ≡ list_any spec.is_bar_or_colon bytes.now }
{
    bytes.iter().any(|b| is_bar_or_colon(*b))
}

#[inline(always)]
fn is_bar_or_colon(byte: u8) -> bool
    ensures { result ≡ spec.is_bar_or_colon byte }
{
    byte == b'|' || byte == b':'
}

/// How a column is aligned, where this is a delimiter.
fn delimiter(text: &str) -> Option<AlignKind>
    ensures { result ≡ spec.column_delimiter text.now }
{
    match text.strip_prefix(':') {
        Some(dashes) => after_dashes(true, dashes),
        None => after_dashes(false, text),
    }
}

/// How a column is aligned by dashes and a colon or none, after a colon or none.
fn after_dashes(left: bool, text: &str) -> Option<AlignKind>
    ensures { result ≡ spec.after_dashes left text.now }
{
    let (dashes, rest) = split_run(b'-', text);
    if dashes == 0 {
        return None;
    }
    match rest.as_bytes() {
        [] => Some(alignment(left, false)),
        [b':'] => Some(alignment(left, true)),
        _ => None,
    }
}

fn alignment(left: bool, right: bool) -> AlignKind
    ensures { result ≡ spec.alignment left right }
{
    match (left, right) {
        (true, true) => AlignKind::Center,
        (true, false) => AlignKind::Left,
        (false, true) => AlignKind::Right,
        (false, false) => AlignKind::None,
    }
}
