//! line-length (MD013): a line that is too long.
//!
//! Long lines are hard to compare and to read in an editor without soft wraps. The rule is off unless a
//! length is given. Lines of code, math, tables and frontmatter aren't looked at, nor are lines with no white
//! space after the limit, such as one with a long URL.
//!
//! Example: a line of 100 characters in words, where 80 are allowed.
use engine_events::event::Name;
use lint_document::document::{Depth, Step, is_space};
use lint_document::{Document, Report, Rule, Span};
use std::alloc::AllocError;

/// Reads what lines are part of.
#[derive(Clone, Copy)]
pub(crate) struct LineLength {
    /// The most characters that a line may have.
    limit: usize,
    /// What is open whose lines aren't looked at.
    open: Depth,
    /// Whether this line is part of such a block.
    is_left_out: bool,
}

impl LineLength {
    /// At the start of a text. Lines may have this number of characters.
    pub(crate) fn new(limit: usize) -> LineLength {
        LineLength {
            limit,
            open: Depth::default(),
            is_left_out: false,
        }
    }

    /// Reads the next event.
    pub(crate) fn read(&mut self, step: &Step<'_>) {
        if has_long_lines(step.name) {
            self.open.count(step.kind);
            self.is_left_out = true;
        }
        if step.starts_line() {
            self.is_left_out = self.open.is_inside();
        }
    }

    /// Reports the line that ends before the next event, if it is too long.
    pub(crate) fn check(
        &self,
        document: &Document<'_>,
        line: Span,
        report: &mut Report,
    ) -> Result<(), AllocError> {
        if self.is_left_out || !report.has(Rule::LineLength) {
            return Ok(());
        }
        let bytes = document.bytes_of(line);
        let Some(size) = size_before(bytes, self.limit) else {
            return Ok(());
        };
        let span = Span {
            start: line.start.saturating_add(size),
            end: line.end,
        };
        let count = bytes.iter().filter(|byte| starts_character(**byte)).count();
        let words = ["line of", " characters, at most"];
        report.add_numbers(Rule::LineLength, span, words, [count, self.limit])
    }
}

/// The number of bytes before the character of a line with this number of characters before it, if there is
/// white space from there on.
fn size_before(line: &[u8], count: usize) -> Option<usize> {
    let mut starts = line
        .iter()
        .enumerate()
        .filter(|(_, byte)| starts_character(**byte));
    let (size, _) = starts.nth(count)?;
    let has_white = line.iter().skip(size).any(|byte| is_space(*byte));
    if has_white { Some(size) } else { None }
}

/// Whether a byte is the first one of a character.
fn starts_character(byte: u8) -> bool {
    !matches!(byte, 0x80..=0xBF)
}

/// Whether the lines of a block of this name aren't looked at.
fn has_long_lines(name: Name) -> bool {
    matches!(
        name,
        Name::CodeFenced | Name::CodeIndented | Name::Frontmatter | Name::GfmTable | Name::MathFlow
    )
}
