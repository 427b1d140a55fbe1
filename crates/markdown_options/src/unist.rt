//! Places in a text, as trees in the format of unist give them.
ghost use Rattle.std.specs.Prelude.{◌≡◌, Some};
ghost use Rattle.markdown_options.specs.Places.{point_text, point_debug_text, position_text, position_debug_text};

use std::fmt;

/// One place in a text.
#[derive(Clone, Copy, PartialEq, Eq)]
pub struct Point {
    /// The line, from 1.
    pub line: usize,
    /// The column, from 1; a byte takes one column, and a tab those up to the next tab stop.
    pub column: usize,
    /// The bytes before the place, from 0.
    pub offset: usize,
}

impl Point {
    /// The point at a line and a column, both from 1, and an offset in bytes, from 0.
    pub fn new(line: usize, column: usize, offset: usize) -> Point
        ensures { result ≡ record { line = line; column = column; offset = offset } }
    {
        Point {
            line,
            column,
            offset,
        }
    }
}

/// Shows `line:column`.
impl fmt::Display for Point {
    ghost output = { λ point. Some (point_text point) };

    fn fmt<W: fmt::Write>(&self, f: &mut fmt::Formatter<W>) -> fmt::Result {
        write!(f, "{}:{}", self.line, self.column)
    }
}

/// Shows `line:column (offset)`.
impl fmt::Debug for Point {
    ghost debug_output = { λ point. Some (point_debug_text point) };

    fn fmt<W: fmt::Write>(&self, f: &mut fmt::Formatter<W>) -> fmt::Result {
        write!(f, "{}:{} ({})", self.line, self.column, self.offset)
    }
}

/// The stretch of a text between two places.
#[derive(Clone, Copy, PartialEq, Eq)]
pub struct Position {
    /// The place of the first byte.
    pub start: Point,
    /// The place right after the last byte.
    pub end: Point,
}

impl Position {
    /// The position between two points, each given as its line, column and offset.
    pub fn new(
        start_line: usize,
        start_column: usize,
        start_offset: usize,
        end_line: usize,
        end_column: usize,
        end_offset: usize,
    ) -> Position
        ensures start { result.start
            ≡ record { line = start_line; column = start_column; offset = start_offset } }
        ensures end { result.end
            ≡ record { line = end_line; column = end_column; offset = end_offset } }
    {
        Position {
            start: Point::new(start_line, start_column, start_offset),
            end: Point::new(end_line, end_column, end_offset),
        }
    }
}

/// Shows `line:column-line:column`.
impl fmt::Display for Position {
    ghost output = { λ position. Some (position_text position) };

    fn fmt<W: fmt::Write>(&self, f: &mut fmt::Formatter<W>) -> fmt::Result {
        write!(f, "{}-{}", self.start, self.end)
    }
}

/// Shows `line:column-line:column (offset-offset)`.
impl fmt::Debug for Position {
    ghost debug_output = { λ position. Some (position_debug_text position) };

    fn fmt<W: fmt::Write>(&self, f: &mut fmt::Formatter<W>) -> fmt::Result {
        write!(f, "{self} ({}-{})", self.start.offset, self.end.offset)
    }
}
