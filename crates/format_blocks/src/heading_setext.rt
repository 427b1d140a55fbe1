//! heading-setext: a heading of one line begins with `#` or `##` (CommonMark 4.2, 4.3).
//!
//! A heading of several lines stays: there is no other way to write it.
//!
//! Example: `A` above `===` becomes `# A`.
use engine_events::event::Name;
use format_document::{Document, Node};
use format_edits::Edits;

/// Makes setext headings ATX headings.
pub fn edit(document: &Document<'_>, edits: &mut Edits) {
    for (index, node) in document.nodes().iter().enumerate() {
        if node.name == Name::HeadingSetext {
            edit_heading(document, index, edits);
        }
    }
}

/// Makes a setext heading an ATX heading, if its text has one line.
fn edit_heading(document: &Document<'_>, index: usize, edits: &mut Edits) {
    let Some((_, text)) = document.kid(index, Name::HeadingSetextText) else {
        return;
    };
    let Some((_, line)) = document.kid(index, Name::HeadingSetextUnderline) else {
        return;
    };
    if document.line_of(text.start) == document.line_of(text.end) {
        move_underline(document, text, line, edits);
    }
}

/// Puts `#`s before the text of a heading, and removes the line below it.
fn move_underline(document: &Document<'_>, text: &Node, line: &Node, edits: &mut Edits) {
    let is_first_rank = document.byte_at(line.start) == Some(b'=');
    let start: &[u8] = if is_first_rank { b"# " } else { b"## " };
    edits.begin_group();
    edits.replace(text.start, text.start, start);
    edits.edit(text.end, line.end);
}
