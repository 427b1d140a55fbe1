//! thematic-break: thematic breaks are `---` (CommonMark 4.1).
//!
//! On the first line of an item with the marker `-` it is `***`, as `- ---` is one break.
//!
//! Example: `* * *` becomes `---`.
use engine_events::event::Name;
use format_document::{Document, Node};
use format_edits::Edits;

/// Makes thematic breaks alike.
pub fn edit(document: &Document<'_>, edits: &mut Edits) {
    for node in document.nodes() {
        if node.name == Name::ThematicBreak {
            edit_break(document, node, edits);
        }
    }
}

/// Makes a thematic break alike the others.
fn edit_break(document: &Document<'_>, node: &Node, edits: &mut Edits) {
    let is_after_dash = document.before_on_line(node.start).contains(&b'-');
    let new: &[u8] = if is_after_dash { b"***" } else { b"---" };
    edits.begin_group();
    edits.replace(node.start, node.end, new);
}
