//! attention: the markers of emphasis and strong emphasis are `*` and `**` (CommonMark 6.2).
//!
//! A marker beside a `*` stays: `**_a_**` is strong emphasis with emphasis in it, `***a***` the other way round. So
//! does one in the text of a reference without a label of its own, since a definition is found by that text.
//!
//! Example: `_a_` becomes `*a*`.
use engine_events::event::Name;
use format_document::{Document, Node};
use format_edits::Edits;

/// Makes the markers of emphasis alike.
pub fn edit(document: &Document<'_>, edits: &mut Edits) {
    // The first node after a text that is a label.
    let mut past = 0;
    for (index, node) in document.nodes().iter().enumerate() {
        if is_label(document, index, node) {
            past = past.max(index.saturating_add(node.size));
        }
        if index >= past && node.name == Name::Emphasis {
            edit_markers(document, index, node, Name::EmphasisSequence, edits);
        }
        if index >= past && node.name == Name::Strong {
            edit_markers(document, index, node, Name::StrongSequence, edits);
        }
    }
}

/// Whether a node is a link or an image whose definition is found by its text.
fn is_label(document: &Document<'_>, index: usize, node: &Node) -> bool {
    if node.name != Name::Link && node.name != Name::Image {
        return false;
    }
    for (at, kid) in document.kids(index) {
        if kid.name == Name::Resource || has_label(document, at, kid) {
            return false;
        }
    }
    true
}

/// Whether a node is a reference with a label of its own.
fn has_label(document: &Document<'_>, index: usize, node: &Node) -> bool {
    node.name == Name::Reference && document.kid(index, Name::ReferenceString).is_some()
}

/// Replaces the markers of an emphasis if they are `_`, and no `*` is next to them.
fn edit_markers(
    document: &Document<'_>,
    index: usize,
    node: &Node,
    sequence: Name,
    edits: &mut Edits,
) {
    if document.byte_at(node.start) != Some(b'_') || !is_apart(document, index, sequence) {
        return;
    }
    edits.begin_group();
    for (_, kid) in document.kids(index) {
        if kid.name == sequence {
            edits.edit(kid.start, kid.end);
            edits.write_times(b'*', kid.end.saturating_sub(kid.start));
        }
    }
}

/// Whether no `*` is next to the markers of an emphasis.
fn is_apart(document: &Document<'_>, index: usize, sequence: Name) -> bool {
    for (_, kid) in document.kids(index) {
        let is_beside = document.byte_before(kid.start) == Some(b'*')
            || document.byte_at(kid.end) == Some(b'*');
        if kid.name == sequence && is_beside {
            return false;
        }
    }
    true
}
