//! blank-lines: one blank line in place of several.
//!
//! Blank lines in code, math, HTML and frontmatter stay. In a block quote a line with `>` alone is blank, too.
//!
//! Example: `a`, two blank lines and `b` become `a`, one blank line and `b`.
use engine_events::event::Name;
use format_document::Document;
use format_edits::Edits;

/// What is printed line by line, as it is.
const VERBATIM: [Name; 5] = [
    Name::CodeFenced,
    Name::CodeIndented,
    Name::HtmlFlow,
    Name::MathFlow,
    Name::Frontmatter,
];

/// Removes blank lines after a blank line with the same prefix.
pub fn edit(document: &Document<'_>, edits: &mut Edits) {
    // The blank line before, or 0.
    let mut last = 0;
    // The first node after code, or what else is kept as it is.
    let mut past = 0;
    for (index, node) in document.nodes().iter().enumerate() {
        if index < past {
            continue;
        }
        if VERBATIM.contains(&node.name) {
            past = index.saturating_add(node.size);
        }
        if node.name == Name::BlankLineEnding {
            let line = document.line_of(node.start);
            if is_same_blank(document, last, line) {
                edits.begin_group();
                edits.edit(
                    document.line_start(line),
                    document.line_start(line.saturating_add(1)),
                );
            }
            last = line;
        }
    }
}

/// Whether a blank line is right after the last one with the same bytes but for white space, and isn't
/// the last line.
fn is_same_blank(document: &Document<'_>, last: usize, line: usize) -> bool {
    last > 0
        && line == last.saturating_add(1)
        && line < document.line_count()
        && document.line(last).trim_ascii() == document.line(line).trim_ascii()
}
