//! What would mend the findings of a rule.
use crate::blocks::block_starts;
use crate::lines::{after_blank_lines, ending_before, line_start, quote_prefix};
use format_edits::{Edits, Window};
use lint_document::{Document, Finding, Rule, Span};
use std::alloc::{AllocError, Global};

/// The edits that would mend the findings of a rule, a group for each. There are none in the closed parts of
/// the document.
pub(crate) fn edits_of(
    alloc: Global,
    document: &Document<'_>,
    closed: &[Window],
    findings: &[Finding],
    rule: Rule,
) -> Result<Edits, AllocError> {
    let mut edits = Edits::new(alloc);
    for finding in findings {
        if finding.rule == rule {
            edits.begin_group();
            mend(document, finding, &mut edits);
        }
    }
    finished(alloc, document, closed, edits)
}

/// Edits of a document, finished.
fn finished(
    alloc: Global,
    document: &Document<'_>,
    closed: &[Window],
    mut edits: Edits,
) -> Result<Edits, AllocError> {
    let blocks = if edits.is_empty() {
        Vec::new(alloc)
    } else {
        block_starts(alloc, document)?
    };
    edits.finish(alloc, document.bytes, &blocks, closed)?;
    Ok(edits)
}

/// Adds the edit that would mend a finding, if there is one.
fn mend(document: &Document<'_>, finding: &Finding, edits: &mut Edits) {
    let Span { start, end } = finding.span;
    match finding.rule {
        Rule::TrailingSpaces => edits.edit(start, end),
        Rule::TabIndent => expand_tabs(document, finding.span, edits),
        // The delimiter stays.
        Rule::ListNumbers => edits.replace(start, end.saturating_sub(1), finding.what.as_bytes()),
        Rule::BlankLines => edits.edit(start, after_blank_lines(document, start)),
        Rule::HeadingBlankLines | Rule::FenceBlankLines | Rule::ListBlankLines => {
            separate(document, start, edits)
        }
        Rule::FinalNewline if start == end => end_line(document, end, edits),
        Rule::FinalNewline => edits.edit(start, end),
        _ => {}
    }
}

/// Puts a blank line before the line that a block starts on.
fn separate(document: &Document<'_>, block: usize, edits: &mut Edits) {
    let line = line_start(document, block);
    edits.replace(line, line, quote_prefix(document, line, block));
    edits.write(ending_before(document, line));
}

/// Puts a line ending at the end of the text, like that of the line before.
fn end_line(document: &Document<'_>, end: usize, edits: &mut Edits) {
    let line = line_start(document, end);
    edits.replace(end, end, ending_before(document, line));
}

/// The columns from one tab stop to the next.
const TAB_SIZE: usize = 4;

/// Puts spaces in place of the tabs of an indent, which starts with a tab.
fn expand_tabs(document: &Document<'_>, indent: Span, edits: &mut Edits) {
    let start = line_start(document, indent.start);
    // Before the first tab there are only spaces.
    let mut column = indent.start.saturating_sub(start);
    edits.edit(indent.start, indent.end);
    for byte in document.bytes_of(indent) {
        let size = if *byte == b'\t' {
            TAB_SIZE - column % TAB_SIZE
        } else {
            1
        };
        column = column.saturating_add(size);
        edits.write_times(b' ', size);
    }
}
