//! trailing-spaces: no white space at the ends of lines.
//!
//! The spaces of a hard break (CommonMark 6.7) and those in code and HTML are something else, and stay.
//!
//! Example: `a` and one space at the end of a line become `a`.
use engine_events::event::Name;
use format_document::Document;
use format_edits::Edits;

/// Removes white space at the ends of lines.
pub fn edit(document: &Document<'_>, edits: &mut Edits) {
    // Where the white space before begins and ends.
    let mut first = 0;
    let mut past = 0;
    for node in document.nodes() {
        if node.name != Name::SpaceOrTab || node.is_cut_at_start || node.end <= node.start {
            continue;
        }
        // White space of a prefix and that after it are two nodes side by side.
        if node.start != past {
            first = node.start;
        }
        past = node.end;
        if document.ends_line(past) {
            edits.begin_group();
            edits.edit(first, past);
        }
    }
}
