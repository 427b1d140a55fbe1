//! List items (CommonMark 5.2).
//!
//!     start     ::= small_indent marker gap, and no thematic break
//!     marker    ::= '-' | '+' | '*' | digit{1,9} ('.' | ')')
//!     gap       ::= column_of_space{1,4}, or one of five or more, or one of a blank rest
//!     continues ::= column_of_space{size}, or a blank rest
ghost use Rattle.std.specs.Prelude.{◌≡◌, ◌≤◌, ◌<◌, ◌^◌, ◌==◌, ◌||◌, length};
ghost use Rattle.std.specs.List.{AllPass};
ghost use Rattle.definition_block.specs.ListItem as spec;
ghost use Rattle.block_starts.specs.View.{rest_of, line_if, container_view, started_if};
ghost use Rattle.block_starts.specs.ListItem.{marker_view, marker_if};
ghost use Rattle.definition_block.specs.ContainerStart.{container_start};

use crate::container_line::ContainerLine;
use crate::cursor::Cursor;
use crate::indent::is_small;
use crate::thematic_break::is_break;
use markdown_options::constants::LIST_ITEM_VALUE_SIZE_MAX;
use markdown_options::{Constructs, Container, Item, Kind};

/// A marker: its last byte, its number, its bytes, and the rest after it.
#[derive(Clone, Copy)]
struct Marker<'a> {
    byte: u8,
    number: Option<u32>,
    size: usize,
    rest: Cursor<'a>,
}

/// The item that starts here, and what it leaves of the line. `interrupts` says that it would
/// interrupt a paragraph.
pub(crate) fn item_start<'a>(
    on: &Constructs,
    interrupts: bool,
    rest: Cursor<'a>,
) -> Option<(Container<'a>, ContainerLine<'a>)>
    ensures { started_if result ≡ spec.item_start on.now interrupts (rest_of rest.entry) }
{
    let (columns, bare) = rest.split_bare();
    if !on.list_item || !is_small(on, columns) || is_break(on, rest) {
        return None;
    }
    let marker = read_marker(bare)?;
    if is_item(interrupts, marker) {
        Some(make_item(columns, marker))
    } else {
        None
    }
}

/// The marker that a rest begins with.
fn read_marker(rest: Cursor<'_>) -> Option<Marker<'_>>
    ensures { marker_if result ≡ spec.marker (rest_of rest.entry) }
{
    let (digits, after) = rest.split_digits();
    if digits.is_empty() {
        bullet(rest)
    } else if digits.len() <= LIST_ITEM_VALUE_SIZE_MAX {
        delimiter(number_of(digits), digits.len(), after)
    } else {
        None
    }
}

/// The marker of a bullet.
fn bullet(rest: Cursor<'_>) -> Option<Marker<'_>>
    ensures { marker_if result ≡ spec.bullet (rest_of rest.entry) }
{
    let Some((byte, after)) = rest.split_first() else {
        return None;
    };
    if !is_bullet(byte) {
        return None;
    }
    Some(Marker {
        byte,
        number: None,
        size: 1,
        rest: after,
    })
}

fn is_bullet(byte: u8) -> bool
    ensures { result ≡ ((byte == 45) || (byte == 43) || (byte == 42)) }
{
    byte == b'-' || byte == b'+' || byte == b'*'
}

/// The byte after the digits of an ordered marker.
fn delimiter(number: u32, digits: usize, rest: Cursor<'_>) -> Option<Marker<'_>>
    requires { digits ≤ 9 }
    ensures { marker_if result ≡ spec.after_number number digits (rest_of rest.entry) }
{
    let Some((byte, after)) = rest.split_first() else {
        return None;
    };
    if !is_delimiter(byte) {
        return None;
    }
    Some(Marker {
        byte,
        number: Some(number),
        size: digits + 1,
        rest: after,
    })
}

fn is_delimiter(byte: u8) -> bool
    ensures { result ≡ ((byte == 46) || (byte == 41)) }
{
    byte == b'.' || byte == b')'
}

/// The number that digits stand for.
fn number_of(digits: &[u8]) -> u32
    requires few { length digits.now ≤ 9 }
    requires digits { AllPass spec.is_digit digits.now }
    ensures { result ≡ spec.number_of digits.now }
{
    let mut number: u32 = 0;
    for digit in digits {
        number = number * 10 + u32::from(*digit - b'0');
    }
    number
}

/// Whether a marker is an item's.
fn is_item(interrupts: bool, marker: Marker<'_>) -> bool
    ensures { result ≡ spec.is_item interrupts (marker_view marker.entry) }
{
    if marker.rest.is_blank() {
        !interrupts
    } else {
        marker.rest.indent() >= 1 && (!interrupts || is_first(marker.number))
    }
}

/// No number, or the number 1.
fn is_first(number: Option<u32>) -> bool
    ensures { result ≡ spec.is_first number }
{
    match number {
        None => true,
        Some(number) => number == 1,
    }
}

/// The item of a marker after so many columns, and what it leaves of the line.
fn make_item<'a>(columns: usize, marker: Marker<'a>) -> (Container<'a>, ContainerLine<'a>)
    requires columns { columns < 2 ^ 63 }
    requires size { marker.size ≤ 10 }
    ensures { container_start (container_view result.0) (rest_of result.1.rest) result.1.before ≡ spec.item columns (marker_view marker.entry) }
{
    let gap = gap(marker.rest);
    let item = Item {
        marker: marker.byte,
        number: marker.number,
        size: columns + marker.size + gap,
    };
    let line = ContainerLine {
        rest: marker.rest.outdent(gap),
        before: Kind::Whitespace,
    };
    (Container::Item(item), line)
}

/// The columns between a marker and the content.
fn gap(after: Cursor<'_>) -> usize
    ensures same { result ≡ spec.gap (rest_of after.entry) }
    ensures few { result ≤ 4 }
{
    let columns = after.indent();
    if columns >= 5 || after.is_blank() {
        1
    } else {
        columns
    }
}

/// What is left after an item's columns, where it goes on. `began_blank` says that it began with a
/// blank rest on the line before.
pub(crate) fn item_continues<'a>(
    size: usize,
    began_blank: bool,
    rest: Cursor<'a>,
) -> Option<ContainerLine<'a>>
    ensures { line_if result ≡ spec.item_continues size began_blank (rest_of rest.entry) }
{
    if is_inside(size, began_blank, rest) {
        Some(ContainerLine {
            rest: rest.outdent(size),
            before: Kind::Whitespace,
        })
    } else {
        None
    }
}

/// Whether a rest is an item's.
fn is_inside(size: usize, began_blank: bool, rest: Cursor<'_>) -> bool
    ensures { result ≡ spec.is_inside size began_blank (rest_of rest.entry) }
{
    if rest.is_blank() {
        !began_blank
    } else {
        rest.indent() >= size
    }
}
