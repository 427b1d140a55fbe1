//! The text as the states see it: a tab is read column by column, and any line ending is one byte.
//!
//! A tab gives itself and then spaces up to the next tab stop (CommonMark 2.2). CR LF, CR and LF
//! each give one line feed (CommonMark 2.1). A line may be read from a later place than its start.
//! A byte order mark at the text's start gives its bytes, and has no columns.
ghost use Rattle.std.specs.Prelude.{◌≡◌, ◌<◌, ◌≤◌, ◌+◌, ◌-◌, ◌^◌, length};
ghost use Rattle.markdown_engine.specs.VirtualText.{IsCut, virtual_byte, tab_column, is_before, feeds, in_line, next_line, ends_before};
ghost use Rattle.markdown_engine.specs.VirtualText.{after_byte, is_in_mark, line_start, place_in, start_of_line, Walks};
ghost use Rattle.markdown_engine.specs.Laws.{remaining};
ghost use Rattle.markdown_engine.specs.Order.{Reaches};

use engine_events::Point;
use engine_events::place::tab_size;
use markdown_options::constants::TAB_SIZE;
use std::alloc::Allocator;
use std::collections::BTreeMap;

/// The size of a byte order mark.
const MARK_SIZE: usize = 3;

/// A byte of the virtual text, and the place after it.
#[derive(Clone, Copy, Debug, PartialEq, Eq)]
pub struct VirtualByte {
    pub byte: u8,
    pub next: Point,
}

/// The byte of the virtual text at a place.
pub fn virtual_byte(bytes: &[u8], point: Point) -> VirtualByte
    requires { point.index < length bytes.now }
    ensures { result ≡ virtual_byte bytes.now point }
{
    match bytes[point.index] {
        b'\t' => tab_column(point),
        b'\n' => VirtualByte {
            byte: b'\n',
            next: next_line(point, 1),
        },
        b'\r' => VirtualByte {
            byte: b'\n',
            next: next_line(point, if feeds(bytes, point.index + 1) { 2 } else { 1 }),
        },
        byte => VirtualByte {
            byte,
            next: after_byte(bytes, point),
        },
    }
}

/// A column of a tab: the first gives the tab, the others spaces.
fn tab_column(point: Point) -> VirtualByte
    requires { point.index < 2 ^ 64 - 1 }
    ensures { result ≡ tab_column point }
{
    let byte = if point.vs == 0 { b'\t' } else { b' ' };
    let next = if tab_size(point.column) == 1 || point.vs as usize >= TAB_SIZE - 1 {
        in_line(point)
    } else {
        Point {
            line: point.line,
            column: point.column.saturating_add(1),
            index: point.index,
            vs: point.vs + 1,
        }
    };
    VirtualByte { byte, next }
}

/// The place after the last column of a tab.
fn in_line(point: Point) -> Point
    requires { point.index < 2 ^ 64 - 1 }
    ensures { result ≡ in_line point }
{
    Point {
        line: point.line,
        column: point.column.saturating_add(1),
        index: point.index + 1,
        vs: 0,
    }
}

/// The place after a byte of a line that is no tab.
fn after_byte(bytes: &[u8], point: Point) -> Point
    requires { point.index < 2 ^ 64 - 1 }
    ensures { result ≡ after_byte bytes.now point }
{
    let column = if is_in_mark(bytes, point.index) {
        point.column
    } else {
        point.column.saturating_add(1)
    };
    Point {
        line: point.line,
        column,
        index: point.index + 1,
        vs: 0,
    }
}

/// Whether an index is in a byte order mark at the text's start.
fn is_in_mark(bytes: &[u8], index: usize) -> bool
    ensures { result ≡ is_in_mark bytes.now index }
{
    index < MARK_SIZE && matches!(bytes, [0xEF, 0xBB, 0xBF, ..])
}

/// The place after a line ending of so many bytes.
fn next_line(point: Point, size: usize) -> Point
    requires { point.index + size < 2 ^ 64 }
    ensures { result ≡ next_line size point }
{
    Point {
        line: point.line.saturating_add(1),
        column: 1,
        index: point.index + size,
        vs: 0,
    }
}

/// Whether a line feed stands at an index.
fn feeds(bytes: &[u8], index: usize) -> bool
    ensures { result ≡ feeds bytes.now index }
{
    bytes.get(index) == Some(&b'\n')
}

/// Whether a place is before an index and a column of a tab there.
pub fn is_before(point: Point, to: (usize, usize)) -> bool
    ensures { result ≡ is_before to point }
{
    point.index < to.0 || (point.index == to.0 && (point.vs as usize) < to.1)
}

/// The place at or after an index and a column of a tab there, on the way from a place before.
pub(crate) fn place_over(bytes: &[u8], point: Point, to: (usize, usize)) -> Point
    requires to { IsCut bytes.now to }
    ensures walks { Walks bytes.now to point result }
    ensures forward { remaining (length bytes.now) result ≤ remaining (length bytes.now) point }
    ensures order { Reaches point result }
{
    let mut place = point;
    while is_before(place, to) {
        place = virtual_byte(bytes, place).next;
    }
    place
}

/// Where the line of an index starts (CommonMark 2.1).
pub fn line_start(bytes: &[u8], index: usize) -> usize
    requires { index ≤ length bytes.now }
    ensures { result ≡ line_start bytes.now index }
{
    let mut start = index;
    while start > 0 && !ends_before(bytes, start) {
        start -= 1;
    }
    start
}

/// Whether a line ending stands right before an index.
fn ends_before(bytes: &[u8], index: usize) -> bool
    requires { 0 < index }
    ensures { result ≡ ends_before bytes.now index }
{
    feeds(bytes, index - 1) || (bytes.get(index - 1) == Some(&b'\r') && !feeds(bytes, index))
}

/// The place at which reading continues: at the start of a line with a skip, the place after the
/// skip.
///
/// Skips are by the index of a line's start.
pub fn place_in<A: Allocator>(skips: &BTreeMap<usize, Point, A>, point: Point) -> Point
    ensures { result ≡ place_in skips.now.entries point }
{
    if point.column != 1 || point.vs != 0 {
        return point;
    }
    start_of_line(point, skips.get(&point.index).copied())
}

/// Where a line is read from: from its start, or from a later place that is given for it.
fn start_of_line(start: Point, given: Option<Point>) -> Point
    ensures { result ≡ start_of_line start given }
{
    match given {
        Some(given) if is_before(start, (given.index, given.vs as usize)) => given,
        _ => start,
    }
}
