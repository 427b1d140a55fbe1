//! Where the blocks of a text start.
use engine_events::event::{Kind, Name};
use lint_document::Document;
use lint_document::document::Depth;
use std::alloc::{AllocError, Global};

/// The starts of the lines on which the blocks that are in no other start.
pub(crate) fn block_starts(
    alloc: Global,
    document: &Document<'_>,
) -> Result<Vec<usize>, AllocError> {
    let mut starts = Vec::new(alloc);
    let mut depth = Depth::default();
    let mut line = 0;
    for step in document.steps() {
        if step.kind == Kind::Enter && !depth.is_inside() && !is_between_blocks(step.name) {
            starts.push(line)?;
        }
        depth.count(step.kind);
        if step.starts_line() {
            line = step.index;
        }
    }
    Ok(starts)
}

/// Whether events of a name are between blocks, and are none.
fn is_between_blocks(name: Name) -> bool {
    matches!(
        name,
        Name::SpaceOrTab | Name::LineEnding | Name::BlankLineEnding | Name::ByteOrderMark
    )
}
