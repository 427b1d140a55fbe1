//! bullet-marker: the markers of bullet lists are `-` (CommonMark 5.3).
//!
//! Lists side by side would become one, so every other one has `*`.
//!
//! Example: `+ a` becomes `- a`.
use engine_events::event::Name;
use format_document::{Document, Kids, holds_blocks, is_between_blocks};
use format_edits::Edits;

/// Makes the markers of bullet lists alike.
pub fn edit(document: &Document<'_>, edits: &mut Edits) {
    edit_lists(document, document.top(), edits);
    for (index, node) in document.nodes().iter().enumerate() {
        if holds_blocks(node.name) {
            edit_lists(document, document.kids(index), edits);
        }
    }
}

/// Makes the markers of the bullet lists among blocks side by side alike.
fn edit_lists(document: &Document<'_>, kids: Kids<'_>, edits: &mut Edits) {
    // Whether the block before is a list with this marker.
    let mut is_after_dash = false;
    for (index, kid) in kids {
        if is_between_blocks(kid.name) {
            continue;
        }
        let is_bullets = kid.name == Name::ListUnordered;
        if is_bullets {
            edit_markers(
                document,
                index,
                if is_after_dash { b'*' } else { b'-' },
                edits,
            );
        }
        is_after_dash = is_bullets && !is_after_dash;
    }
}

/// Gives the items of a list a marker.
fn edit_markers(document: &Document<'_>, list: usize, new: u8, edits: &mut Edits) {
    edits.begin_group();
    for (item, _) in document.kids(list) {
        if let Some(prefix) = document.prefix_of(item) {
            edits.edit(prefix.marker, prefix.marker_end());
            edits.write_times(new, 1);
        }
    }
}
