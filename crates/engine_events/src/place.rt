//! Places in a text, with the columns of tabs (CommonMark 2.2).
ghost use Rattle.std.specs.Prelude.{◌≡◌, ◌≤◌, ◌<◌, ◌+◌, ◌^◌, length, IsTrue};
ghost use Rattle.std.specs.List.{list_all};
ghost use Rattle.engine_events.specs.Columns.{mark_size, tab_size, column_after, column_past, ends_no_line, between};

use markdown_options::constants::TAB_SIZE;
use markdown_options::unist;

/// A place in a text.
#[derive(Clone, Copy, Debug, PartialEq, Eq)]
pub struct Point {
    /// The line, from 1.
    pub line: usize,
    /// The column, from 1: a byte takes one, a tab those up to the next tab stop.
    pub column: usize,
    /// How many bytes are before.
    pub index: usize,
    /// How many columns of the tab at the index are before.
    pub vs: u8,
}

/// Where a text starts.
pub const START: Point = Point {
    line: 1,
    column: 1,
    index: 0,
    vs: 0,
};

impl Point {
    ghost use Rattle.std.specs.Prelude.{◌≡◌, ◌≤◌, ◌<◌, ◌^◌, length, IsTrue};
    ghost use Rattle.std.specs.List.{list_all};
    ghost use Rattle.engine_events.specs.Columns.{ends_no_line, between};
    ghost use Rattle.engine_events.specs.Points.{unist_point, shift_to};

    /// The place without the columns of a tab; its offset is the index.
    pub fn to_unist(&self) -> unist::Point
        ensures { result ≡ unist_point self.now }
    {
        unist::Point::new(self.line, self.column, self.index)
    }

    /// The place at a later index of the same line (CommonMark 2.2).
    pub fn shift_to(&self, bytes: &[u8], index: usize) -> Point
        requires after { self.now.index ≤ index }
        requires within { index ≤ length bytes.now }
        requires line { IsTrue (list_all ends_no_line (between self.now.index index bytes.now)) }
        requires fits { (shift_to bytes.now index self.now).column < 2 ^ 64 }
        ensures { result ≡ shift_to bytes.now index self.now }
    {
        if index == self.index {
            return *self;
        }
        let start = self.index.max(mark_size(bytes)).min(index);
        Point {
            line: self.line,
            column: column_past(&bytes[start..index], self.column),
            index,
            vs: 0,
        }
    }
}

/// The size of a byte order mark at the start of a text: 3, or 0 where there is none.
fn mark_size(bytes: &[u8]) -> usize
    ensures { result ≡ mark_size bytes.now }
{
    match bytes {
        [0xEF, 0xBB, 0xBF, ..] => 3,
        _ => 0,
    }
}

/// The column after some bytes of one line.
fn column_past(bytes: &[u8], column: usize) -> usize
    requires { column_past bytes.now column < 2 ^ 64 }
    ensures { result ≡ column_past bytes.now column }
{
    let mut column = column;
    for byte in bytes {
        column = column_after(*byte, column);
    }
    column
}

/// The column after a byte: a tab goes up to the next tab stop.
pub fn column_after(byte: u8, column: usize) -> usize
    requires { column_after byte column < 2 ^ 64 }
    ensures { result ≡ column_after byte column }
{
    if byte == b'\t' {
        column + tab_size(column)
    } else {
        column + 1
    }
}

/// How many columns a tab at a column has, up to the next tab stop: from 1 to 4.
pub fn tab_size(column: usize) -> usize
    ensures { result ≡ tab_size column }
{
    TAB_SIZE - (column % TAB_SIZE + (TAB_SIZE - 1)) % TAB_SIZE
}
