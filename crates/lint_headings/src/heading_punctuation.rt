//! heading-punctuation (MD026): a heading that ends in punctuation.
//!
//! A heading is no sentence: a full stop at its end looks like a slip. A question mark is no slip, and isn't
//! found, nor is a semicolon that ends a character reference, nor the colon after the name of an emoji.
//!
//! Example: `## Usage:`.
use lint_document::{Document, Heading, Report, Rule};
use std::alloc::AllocError;

/// What a heading should not end in.
const PUNCTUATION: [&str; 10] = [".", ",", ";", ":", "!", "。", "，", "；", "：", "！"];

/// Reports a heading if it ends in punctuation.
pub(crate) fn check(
    document: &Document<'_>,
    heading: &Heading,
    report: &mut Report,
) -> Result<(), AllocError> {
    let Some(text) = heading.text else {
        return Ok(());
    };
    match mark_at_end(document.bytes_of(text.span)) {
        Some(mark) => report.add_named(
            Rule::HeadingPunctuation,
            heading.span,
            "heading ends in",
            mark,
        ),
        None => Ok(()),
    }
}

/// The mark that a heading should not end in, if it does.
fn mark_at_end(text: &[u8]) -> Option<&'static str> {
    let mark = PUNCTUATION
        .iter()
        .copied()
        .find(|mark| text.ends_with(mark.as_bytes()))?;
    let before = text.strip_suffix(mark.as_bytes())?;
    let is_part = match mark {
        ";" => ends_with_word(before, b'&'),
        ":" => ends_with_word(before, b':'),
        _ => false,
    };
    if is_part { None } else { Some(mark) }
}

/// Whether bytes end with this one and a word after it.
fn ends_with_word(bytes: &[u8], start: u8) -> bool {
    let size = bytes
        .iter()
        .rev()
        .take_while(|byte| is_of_name(**byte))
        .count();
    size > 0 && bytes.iter().rev().nth(size).copied() == Some(start)
}

/// Whether a byte may be in the name of a character reference or of an emoji.
fn is_of_name(byte: u8) -> bool {
    byte.is_ascii_alphanumeric() || matches!(byte, b'#' | b'_' | b'-' | b'+')
}
