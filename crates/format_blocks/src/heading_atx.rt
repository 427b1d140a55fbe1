//! heading-atx: one space after the `#`s of a heading, and no `#`s at its end (CommonMark 4.2).
//!
//! Example: `#  A #` becomes `# A`.
use engine_events::event::Name;
use format_document::{Document, Node};
use format_edits::Edits;

/// Makes ATX headings alike.
pub fn edit(document: &Document<'_>, edits: &mut Edits) {
    for (index, node) in document.nodes().iter().enumerate() {
        if node.name == Name::HeadingAtx {
            edit_heading(document, index, node, edits);
        }
    }
}

/// Makes an ATX heading alike the others.
fn edit_heading(document: &Document<'_>, index: usize, heading: &Node, edits: &mut Edits) {
    let Some((_, sequence)) = document.kid(index, Name::HeadingAtxSequence) else {
        return;
    };
    edits.begin_group();
    match document.kid(index, Name::HeadingAtxText) {
        Some((_, text)) => {
            edits.replace(sequence.end, text.start, b" ");
            edits.edit(text.end, heading.end);
        }
        None => edits.edit(sequence.end, heading.end),
    }
}
