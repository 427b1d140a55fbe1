//! Lines and columns, for messages.
ghost use Rattle.std.specs.Prelude.{◌≡◌, ◌≤◌};

use engine_events::place::tab_size;

/// What a column counts. A byte order mark takes none.
#[derive(Clone, Copy)]
pub enum Columns {
    /// Bytes, and of a tab the columns up to the next tab stop (5, 9, 13, ..).
    Bytes,
    /// Characters.
    Characters,
}

/// A line and a column of a text.
#[derive(Clone, Copy)]
pub struct Place {
    /// The line, from 1.
    pub line: usize,
    /// The column, from 1.
    pub column: usize,
}

impl Place {
    /// Where a text starts.
    const START: Place = Place { line: 1, column: 1 };

    /// The place after so many columns of the same line.
    fn after(self, columns: usize) -> Place
        ensures line { result.line ≡ self.line }
        ensures column { self.column ≤ result.column }
    {
        Place {
            column: self.column.saturating_add(columns),
            ..self
        }
    }

    /// Where the next line starts.
    fn next_line(self) -> Place
        ensures { self.line ≤ result.line }
    {
        Place {
            line: self.line.saturating_add(1),
            column: 1,
        }
    }
}

/// The places of a text, one after another. It reads each byte once.
#[derive(Clone, Copy)]
pub struct Places<'a> {
    /// What is left of the text.
    text: &'a [u8],
    /// How many bytes were read.
    index: usize,
    place: Place,
    /// Whether the last byte is a carriage return.
    after_return: bool,
    columns: Columns,
}

/// A byte order mark in UTF-8.
const BYTE_ORDER_MARK: [u8; 3] = [0xEF, 0xBB, 0xBF];

impl<'a> Places<'a> {
    /// The places of a text.
    pub fn new(text: &'a [u8], columns: Columns) -> Places<'a> {
        let start = Places {
            text,
            index: 0,
            place: Place::START,
            after_return: false,
            columns,
        };
        match text.strip_prefix(&BYTE_ORDER_MARK) {
            Some(text) => Places {
                text,
                index: 3,
                ..start
            },
            None => start,
        }
    }

    /// The place with so many bytes before it, which isn't before the last place.
    pub fn at(&mut self, index: usize) -> Place {
        let count = index.saturating_sub(self.index).min(self.text.len());
        let (bytes, text) = self.text.split_at(count);
        for byte in bytes {
            self.step(*byte);
        }
        self.text = text;
        self.index = index;
        self.place
    }

    /// Reads a byte.
    fn step(&mut self, byte: u8) {
        self.place = match byte {
            b'\r' => self.place.next_line(),
            b'\n' if self.after_return => self.place,
            b'\n' => self.place.next_line(),
            _ => self.place.after(self.width(byte)),
        };
        self.after_return = byte == b'\r';
    }

    /// How many columns a byte takes that ends no line.
    fn width(&self, byte: u8) -> usize {
        match (self.columns, byte) {
            (Columns::Bytes, b'\t') => tab_size(self.place.column),
            // All bytes of a character but the first.
            (Columns::Characters, 0x80..=0xBF) => 0,
            _ => 1,
        }
    }
}
