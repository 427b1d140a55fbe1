//! The rest of a line, by columns (CommonMark 2.2).
//!
//!     rest ::= column_of_a_tab* byte*
ghost use Rattle.std.specs.Prelude.{◌≡◌, ◌+◌, ◌*◌, ◌^◌, ◌<◌, ◌≤◌, ◌∷◌, ◌++◌, false, length, replicate, take, drop, slice_index, MatchOption, ℕ};
ghost use Rattle.std.specs.List.{prefix_len};
ghost use Rattle.definition_text.specs.Columns.{whole, codes_from, indent, bare, bytes_of, block_codes, is_blank, is_tab_column, tab_column, is_white};
ghost use Rattle.definition_text.specs.Indents.{outdent};
ghost use Rattle.definition_block.specs.ListItem.{is_digit};
ghost use Rattle.definition_block.specs.ThematicBreak.{is_break_text};
ghost use Rattle.block_starts.specs.Marks.{NoMark, begins_container, begins_with_bracket, begins_with_caret, begins_with_marker, is_mark, may_start};
ghost use Rattle.block_starts.specs.Widths.{width};
ghost use Rattle.definition_inline.specs.Label.{ends_label};
ghost use Rattle.block_starts.specs.Labels.{NoLabel, IsLabelBefore, label_len};
ghost use Rattle.block_starts.specs.ThematicBreak.{BreaksWithin};

use crate::thematic_break::break_tail;
use markdown_options::constants::TAB_SIZE;
use text_bytes::{is_space, is_space_or_tab, may_escape};

/// The rest of a line.
#[derive(Clone, Copy)]
pub struct Cursor<'a> {
    /// The columns left of a tab that a prefix ended in.
    owed: usize,
    /// The column of the next byte, after those; the first of a line is 0.
    column: usize,
    /// The bytes after those columns.
    text: &'a str,
    /// How many spaces and tabs these bytes begin with.
    white: usize,
    /// How many columns those spaces and tabs have.
    columns: usize,
    /// No more bytes than this at the end of the line are a thematic break.
    tail: usize,
    ghost fits: { column + 4 * length text.now < 2 ^ 63 },
    ghost few: { owed < 4 },
    ghost front: { white ≡ prefix_len is_white text.now },
    ghost wide: { columns ≡ indent (codes_from column text.now) },
    ghost breaks: { BreaksWithin tail text.now },
}

impl<'a> Cursor<'a> {
    ghost use Rattle.block_starts.specs.View.{rest_of};

    /// A line before anything of it is read.
    pub fn new(content: &'a str) -> Cursor<'a>
        requires { length content.now < 2 ^ 61 }
        ensures { rest_of result ≡ whole content.now }
    {
        Cursor::at(0, content, break_tail(content.as_bytes()))
    }

    /// The same, where nothing will ask whether it may be a thematic break.
    pub(crate) fn without_breaks(content: &'a str) -> Cursor<'a>
        requires { length content.now < 2 ^ 61 }
        ensures { rest_of result ≡ whole content.now }
    {
        Cursor::at(0, content, content.len())
    }

    /// A text at a column.
    fn at(column: usize, text: &'a str, tail: usize) -> Cursor<'a>
        requires fits { column + 4 * length text.now < 2 ^ 63 }
        requires breaks { BreaksWithin tail text.now }
        ensures { rest_of result ≡ codes_from column text.now }
    {
        let (white, columns) = white_ahead(column, text.as_bytes());
        Cursor {
            owed: 0,
            column,
            text,
            white,
            columns,
            tail,
        }
    }

    /// The bytes that are left.
    pub fn text(self) -> &'a str
        ensures { result.now ≡ bytes_of (rest_of self.entry) }
    {
        bytes_only(self.text)
    }

    /// The columns left of a tab that a prefix ended in. In a block they stand before the bytes.
    pub fn tab_columns(self) -> u8
        ensures same { result ≡ prefix_len is_tab_column (rest_of self.entry) }
        ensures codes { block_codes (rest_of self.entry) ≡ replicate result tab_column ++ bytes_of (rest_of self.entry) }
    {
        let _bytes = bytes_only(self.text);
        self.owed as u8
    }

    /// Whether only spaces and tabs are left.
    pub fn is_blank(self) -> bool
        ensures { result ≡ is_blank (rest_of self.entry) }
    {
        self.white == self.text.len()
    }

    /// Whether the bytes after the spaces and tabs ahead are few enough for a thematic break. More
    /// are none.
    pub(crate) fn may_break(self) -> bool
        ensures { result ≡ false → is_break_text (bytes_of (bare (rest_of self.entry))) ≡ false }
    {
        self.dark().len() <= self.tail
    }

    /// The columns of spaces and tabs ahead.
    pub fn indent(self) -> usize
        ensures same { result ≡ indent (rest_of self.entry) }
        ensures fits { result < 2 ^ 63 }
    {
        self.owed + self.columns
    }

    /// The columns of spaces and tabs ahead, and the rest after them.
    pub fn split_bare(self) -> (usize, Cursor<'a>)
        ensures columns { result.0 ≡ indent (rest_of self.entry) }
        ensures rest { rest_of result.1 ≡ bare (rest_of self.entry) }
        ensures fits { result.0 < 2 ^ 63 }
    {
        (self.indent(), self.bare())
    }

    /// The bytes after the spaces and tabs ahead.
    pub fn bare_text(self) -> &'a str
        ensures { result.now ≡ bytes_of (bare (rest_of self.entry)) }
    {
        self.dark()
    }

    /// The same, as bytes of the text.
    fn dark(self) -> &'a str
        ensures same { result.now ≡ drop self.entry.white self.entry.text.now }
        ensures view { result.now ≡ bytes_of (bare (rest_of self.entry)) }
    {
        bytes_only(without_white(self.text, self.white))
    }

    /// The rest after its spaces and tabs.
    fn bare(self) -> Cursor<'a>
        ensures { rest_of result ≡ bare (rest_of self.entry) }
    {
        let text = without_white(self.text, self.white);
        Cursor::at(self.column + self.columns, text, self.tail)
    }

    /// The rest without its first columns of spaces and tabs, at most so many.
    pub fn outdent(self, most: usize) -> Cursor<'a>
        ensures { rest_of result ≡ outdent most (rest_of self.entry) }
    {
        if most >= self.indent() {
            return self.bare();
        }
        let mut rest = self;
        for _ in 0..most {
            rest = rest.without_column();
        }
        rest
    }

    /// The rest without the column of space that it begins with.
    fn without_column(self) -> Cursor<'a>
        requires { 0 < indent (rest_of self) }
        ensures { rest_of result ≡ drop 1 (rest_of self.entry) }
    {
        if self.owed > 0 {
            let mut rest = self;
            rest.owed -= 1;
            return rest;
        }
        let wide = width(self.column, self.text.as_bytes()[0]);
        Cursor {
            owed: wide - 1,
            column: self.column + wide,
            text: without_white(self.text, 1),
            white: self.white - 1,
            columns: self.columns - wide,
            tail: self.tail,
        }
    }

    /// Whether the marker of a quote or an item may stand after the spaces and tabs ahead.
    #[inline(always)]
    pub(crate) fn may_start(&self) -> bool
        ensures { result ≡ may_start (bare (rest_of self.now)) }
    {
        let bytes = self.text.as_bytes();
        self.white < bytes.len() && begins_container(bytes[self.white])
    }

    /// Whether `[^` stands after the spaces and tabs ahead.
    #[inline(always)]
    pub(crate) fn begins_with_marker(&self) -> bool
        ensures { result ≡ begins_with_marker (bare (rest_of self.now)) }
    {
        self.begins_with_bracket() && self.caret_follows()
    }

    /// Whether a `[` stands after the spaces and tabs ahead.
    #[inline(always)]
    fn begins_with_bracket(&self) -> bool
        ensures { result ≡ begins_with_bracket (bare (rest_of self.now)) }
    {
        let bytes = self.text.as_bytes();
        self.white < bytes.len() && bytes[self.white] == b'['
    }

    /// Whether a `^` stands after the first byte behind the spaces and tabs ahead.
    #[inline(always)]
    fn caret_follows(&self) -> bool
        ensures { result ≡ begins_with_caret (drop 1 (bare (rest_of self.now))) }
    {
        let bytes = self.text.as_bytes();
        if self.white >= bytes.len() {
            return false;
        }
        let next = self.white + 1;
        next < bytes.len() && bytes[next] == b'^'
    }

    /// The next byte and the rest after it, where it is one of a container's marker, and no digit.
    pub(crate) fn split_first(self) -> Option<(u8, Cursor<'a>)>
        ensures { MatchOption result (NoMark (rest_of self.entry)) (λ s. rest_of self.entry ≡ s.0 ∷ rest_of s.1) }
    {
        if self.owed > 0 || self.text.is_empty() {
            return None;
        }
        let byte = self.text.as_bytes()[0];
        if !is_mark(byte) {
            return None;
        }
        let rest = Cursor::at(self.column + 1, &self.text[1..], self.tail);
        Some((byte, rest))
    }

    /// The text before the `]` that closes a label, and the rest after it, where no white space
    /// stands before it.
    pub(crate) fn split_label(self) -> Option<(&'a str, Cursor<'a>)>
        ensures { MatchOption result (NoLabel (rest_of self.entry)) (λ s. IsLabelBefore (rest_of self.entry) s.0.now (rest_of s.1)) }
    {
        if self.owed > 0 {
            return None;
        }
        let Some(end) = label_len(self.text.as_bytes()) else {
            return None;
        };
        let rest = Cursor::at(self.column + end + 1, &self.text[end + 1..], self.tail);
        Some((&self.text[..end], rest))
    }

    /// The digits ahead, and the rest after them.
    pub(crate) fn split_digits(self) -> (&'a [u8], Cursor<'a>)
        ensures digits { result.0.now ≡ take (prefix_len is_digit (rest_of self.entry)) (rest_of self.entry) }
        ensures rest { rest_of result.1 ≡ drop (prefix_len is_digit (rest_of self.entry)) (rest_of self.entry) }
    {
        if self.owed > 0 {
            return (&[], self);
        }
        let count = digits(self.text.as_bytes());
        let rest = Cursor::at(self.column + count, &self.text[count..], self.tail);
        (&self.text.as_bytes()[..count], rest)
    }
}

/// A text: its bytes are below 256, and so no columns of a tab.
fn bytes_only(text: &str) -> &str
    ensures same { result.now ≡ text.now }
    ensures bytes { (k : ℕ) → slice_index text.now k < 256 }
{
    text
}

/// A text without its first spaces and tabs, so many.
fn without_white(text: &str, count: usize) -> &str
    requires { count ≤ prefix_len is_white text.now }
    ensures { result.now ≡ drop count text.now }
{
    &text[count..]
}

/// How many digits a text begins with.
fn digits(bytes: &[u8]) -> usize
    ensures same { result ≡ prefix_len is_digit bytes.now }
    ensures within { result ≤ length bytes.now }
{
    for (i, b) in bytes.iter().enumerate() {
        if !b.is_ascii_digit() {
            return i;
        }
    }
    bytes.len()
}

/// How many bytes stand before the `]` that closes a label, where no white space does.
fn label_len(bytes: &[u8]) -> Option<usize>
    ensures { result ≡ label_len false bytes.now }
{
    let mut escaped = false;
    for (i, b) in bytes.iter().enumerate() {
        if is_space(*b) {
            return None;
        }
        if ends_label(escaped, *b) {
            return if *b == b']' { Some(i) } else { None };
        }
        escaped = may_escape(escaped, *b);
    }
    None
}

/// Whether a byte is a bracket that no backslash escapes.
fn ends_label(escaped: bool, byte: u8) -> bool
    ensures { result ≡ ends_label escaped byte }
{
    (byte == b'[' || byte == b']') && !escaped
}

/// Whether the marker of a quote or an item may begin with a byte.
fn begins_container(byte: u8) -> bool
    ensures { result ≡ begins_container byte }
{
    matches!(byte, b'>' | b'-' | b'+' | b'*') || byte.is_ascii_digit()
}

/// Whether a byte is one of a container's marker, and no digit.
fn is_mark(byte: u8) -> bool
    ensures { result ≡ is_mark byte }
{
    matches!(
        byte,
        b'>' | b'-' | b'+' | b'*' | b'.' | b')' | b'[' | b'^' | b':'
    )
}

/// How many spaces and tabs a text at a column begins with, and how many columns these have.
fn white_ahead(column: usize, bytes: &[u8]) -> (usize, usize)
    requires { column + 4 * length bytes.now < 2 ^ 63 }
    ensures white { result.0 ≡ prefix_len is_white bytes.now }
    ensures columns { result.1 ≡ indent (codes_from column bytes.now) }
{
    let mut at = column;
    for i in 0..bytes.len() {
        if !is_space_or_tab(bytes[i]) {
            return (i, at - column);
        }
        at += width(at, bytes[i]);
    }
    (bytes.len(), at - column)
}

/// The columns of a byte that stands at a column.
fn width(column: usize, byte: u8) -> usize
    ensures same { result ≡ width column byte }
    ensures some { 1 ≤ result }
    ensures few { result ≤ 4 }
{
    if byte == b'\t' {
        TAB_SIZE - column % TAB_SIZE
    } else {
        1
    }
}
