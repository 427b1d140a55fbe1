//! emphasis-spaces (MD037): white space inside the markers of emphasis.
//!
//! A marker with white space at its inner side opens or closes nothing (CommonMark 6.2), so it is printed as
//! it is written. Only pairs on one line are found. A pair of single markers with white space at both inner
//! sides isn't, since `2 * 3 * 4` is a product.
//!
//! Example: `** a**`.
use engine_events::event::{Kind, Name};
use lint_document::document::{Step, is_white};
use lint_document::{Document, Report, Rule, Span};
use std::alloc::AllocError;

/// Asterisks or underscores in a row that are text.
#[derive(Clone, Copy)]
struct Marker {
    span: Span,
    byte: u8,
    /// Whether white space is before them, or nothing.
    is_after_white: bool,
    /// Whether white space is after them, or nothing.
    is_before_white: bool,
    /// Whether a letter or a digit is after them.
    is_before_word: bool,
}

/// Reads the markers in text.
#[derive(Clone, Copy, Default)]
pub(crate) struct EmphasisSpaces {
    /// The last marker of this line that may have been meant to open emphasis.
    open: Option<Marker>,
}

impl EmphasisSpaces {
    /// Reads the next event. Reports the pairs of markers that close in the data that end there.
    pub(crate) fn read(
        &mut self,
        document: &Document<'_>,
        step: &Step<'_>,
        report: &mut Report,
    ) -> Result<(), AllocError> {
        if step.starts_line() || step.name == Name::GfmTableCell {
            self.open = None;
        }
        if step.kind == Kind::Exit && step.name == Name::Data {
            self.read_data(document, step, report)
        } else {
            Ok(())
        }
    }

    /// Reads the markers in data.
    fn read_data(
        &mut self,
        document: &Document<'_>,
        step: &Step<'_>,
        report: &mut Report,
    ) -> Result<(), AllocError> {
        let mut end = 0;
        for (offset, byte) in step.bytes.iter().enumerate() {
            let index = step.start.saturating_add(offset);
            if index >= end && matches!(*byte, b'*' | b'_') {
                let marker = Marker::at(document, index, *byte);
                end = marker.span.end;
                if let Some(span) = self.pair(marker) {
                    let words = "white space inside the markers of emphasis";
                    report.add(Rule::EmphasisSpaces, span, words)?;
                }
            }
        }
        Ok(())
    }

    /// Reads a marker. Returns the text that it closes, if white space is inside its markers.
    fn pair(&mut self, marker: Marker) -> Option<Span> {
        if let Some(open) = self.open.take() {
            if marker.closes(&open) {
                return Some(Span {
                    start: open.span.start,
                    end: marker.span.end,
                });
            }
        }
        if marker.is_after_white {
            self.open = Some(marker);
        }
        None
    }
}

impl Marker {
    /// The marker of a byte that starts at an index.
    fn at(document: &Document<'_>, start: usize, byte: u8) -> Marker {
        let (before, bytes) = document.bytes.split_at(start.min(document.bytes.len()));
        let size = bytes.iter().take_while(|next| **next == byte).count();
        let after = bytes.get(size);
        Marker {
            span: Span {
                start,
                end: start.saturating_add(size),
            },
            byte,
            is_after_white: is_white_or_none(before.last()),
            is_before_white: is_white_or_none(after),
            is_before_word: after.is_some_and(|byte| byte.is_ascii_alphanumeric() || *byte > 0x7F),
        }
    }

    /// Whether this marker was meant to close emphasis after another, and white space is inside the two.
    fn closes(&self, open: &Marker) -> bool {
        let size = self.span.end.saturating_sub(self.span.start);
        let is_like = self.byte == open.byte
            && open.span.end.saturating_sub(open.span.start) == size;
        let may_close = if self.is_after_white {
            self.is_before_white
        } else {
            !self.is_before_word
        };
        let inside = if size == 1 {
            open.is_before_white != self.is_after_white
        } else {
            open.is_before_white || self.is_after_white
        };
        is_like && may_close && inside && size <= SIZE_MAX
    }
}

/// The most asterisks of a marker.
const SIZE_MAX: usize = 3;

fn is_white_or_none(byte: Option<&u8>) -> bool {
    match byte {
        Some(byte) => is_white(*byte),
        None => true,
    }
}
