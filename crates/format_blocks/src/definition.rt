//! definition: one space between the parts of a definition (CommonMark 4.7).
//!
//! Parts on lines of their own stay there.
//!
//! Example: `[a]:b   "c"` becomes `[a]: b "c"`.
use engine_events::event::Name;
use format_document::{Document, Node};
use format_edits::Edits;

/// Makes definitions alike.
pub fn edit(document: &Document<'_>, edits: &mut Edits) {
    for (index, node) in document.nodes().iter().enumerate() {
        if node.name == Name::Definition {
            edit_definition(document, index, edits);
        }
    }
}

/// Makes a definition alike the others.
fn edit_definition(document: &Document<'_>, index: usize, edits: &mut Edits) {
    edits.begin_group();
    for (_, kid) in document.kids(index) {
        if is_gap(document, kid) {
            edits.replace(kid.start, kid.end, b" ");
        }
        if kid.name == Name::DefinitionMarker && !is_white_at(document, kid.end) {
            edits.replace(kid.end, kid.end, b" ");
        }
    }
}

/// Whether a node is white space between parts on one line.
fn is_gap(document: &Document<'_>, node: &Node) -> bool {
    node.name == Name::SpaceOrTab
        && node.is_whole()
        && !document.before_on_line(node.start).is_empty()
}

/// Whether white space or the end of the text is at an index.
fn is_white_at(document: &Document<'_>, index: usize) -> bool {
    matches!(
        document.byte_at(index),
        None | Some(b' ' | b'\t' | b'\n' | b'\r')
    )
}
