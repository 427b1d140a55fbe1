//! marker-space, list-indent, list-number: the lines of lists.
//!
//! One space comes after the marker of an item, a list begins where the content around it begins, and numbers count up
//! (CommonMark 5.2, 5.3). The lines of an item move with its content; a lazy line stays. A list whose first two items
//! have the same number keeps it for all. Lists in block quotes and footnotes stay.
//!
//! Example: `*   a` and below it `b` after four spaces become `* a`, and `b` after two.
use crate::walk::Walk;
use engine_events::event::Name;
use format_document::{Document, is_list};
use format_edits::Edits;
use std::alloc::Global;

/// Which of the rules are applied.
#[derive(Clone, Copy)]
pub struct Lines {
    /// One space after a marker.
    pub marker_space: bool,
    /// Lists begin where the content around them begins.
    pub indent: bool,
    /// Numbers count up.
    pub number: bool,
}

/// The edits of the outermost lists of a document.
pub fn edit(alloc: Global, document: &Document<'_>, lines: Lines, edits: &mut Edits) {
    // The first node after a list, a block quote or a footnote.
    let mut past = 0;
    for (index, node) in document.nodes().iter().enumerate() {
        if index < past {
            continue;
        }
        if is_list(node.name) {
            edits.begin_group();
            Walk::new(alloc, document, lines, node).outermost(index, node, edits);
        }
        if is_list(node.name)
            || node.name == Name::BlockQuote
            || node.name == Name::GfmFootnoteDefinition
        {
            past = index.saturating_add(node.size);
        }
    }
}
