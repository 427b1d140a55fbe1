//! hard-break: hard breaks (CommonMark 6.7) are two spaces, or a backslash, if the style says so.
//!
//! Example: `a` and a backslash at the end of a line become `a` and two spaces, or the other way round.
use crate::style::BreakStyle;
use engine_events::event::Name;
use format_document::Document;
use format_edits::Edits;

/// Makes hard breaks alike.
pub fn edit(document: &Document<'_>, style: BreakStyle, edits: &mut Edits) {
    let new: &[u8] = match style {
        BreakStyle::Keep => return,
        BreakStyle::Spaces => b"  ",
        BreakStyle::Backslash => b"\\",
    };
    for node in document.nodes() {
        if node.name == Name::HardBreakTrailing || node.name == Name::HardBreakEscape {
            edits.begin_group();
            edits.replace(node.start, node.end, new);
        }
    }
}
