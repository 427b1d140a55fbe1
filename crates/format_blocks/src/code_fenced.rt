//! code-fenced: fences of backticks in place of tildes (CommonMark 4.5).
//!
//! The info of a fence of backticks has no backtick, so such a fence stays.
//!
//! Example: `~~~ rust` becomes the same with three backticks.
use engine_events::event::Name;
use format_document::{Document, Node};
use format_edits::Edits;

/// The least number of backticks of a fence.
const FENCE_MIN: usize = 3;

/// Makes fences of backticks.
pub fn edit(document: &Document<'_>, edits: &mut Edits) {
    for (index, node) in document.nodes().iter().enumerate() {
        if node.name == Name::CodeFenced && may_have_backticks(document, node.start) {
            edit_fences(document, index, node, edits);
        }
    }
}

/// Whether the fence at an index has tildes, and no backtick on its line.
fn may_have_backticks(document: &Document<'_>, index: usize) -> bool {
    document.byte_at(index) == Some(b'~') && !document.line(document.line_of(index)).contains(&b'`')
}

/// Replaces the tildes of the fences of code.
fn edit_fences(document: &Document<'_>, index: usize, code: &Node, edits: &mut Edits) {
    edits.begin_group();
    for node in document.inside(index) {
        if node.name == Name::CodeFencedFenceSequence {
            edits.edit(node.start, node.end);
            write_fence(document.bytes_of(code), edits);
        }
    }
}

/// Writes a fence of backticks that is longer than any run of backticks in code.
pub(crate) fn write_fence(code: &[u8], edits: &mut Edits) {
    let mut longest: usize = 0;
    let mut run: usize = 0;
    for byte in code {
        run = if *byte == b'`' {
            run.saturating_add(1)
        } else {
            0
        };
        longest = longest.max(run);
    }
    edits.write_times(b'`', longest.saturating_add(1).max(FENCE_MIN));
}
