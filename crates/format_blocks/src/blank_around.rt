//! blank-around: a blank line around headings, code, lists, tables and thematic breaks.
//!
//! Items without blank lines between their blocks stay: a blank line would make the list loose (CommonMark 5.3).
//!
//! Example: `# A` and on the next line `b` get a blank line between them.
use engine_events::event::Name;
use format_document::{Document, Kids, holds_blocks, is_between_blocks, is_list};
use format_edits::Edits;

/// Puts blank lines between blocks.
pub fn edit(document: &Document<'_>, edits: &mut Edits) {
    edit_blocks(document, document.top(), edits);
    for (index, node) in document.nodes().iter().enumerate() {
        if holds_blocks(node.name) && may_have_blanks(document, index, node.name) {
            edit_blocks(document, document.kids(index), edits);
        }
    }
}

/// Whether a blank line between the blocks of a container changes nothing.
fn may_have_blanks(document: &Document<'_>, index: usize, name: Name) -> bool {
    name == Name::BlockQuote || document.kid(index, Name::BlankLineEnding).is_some()
}

/// Puts blank lines between blocks side by side.
fn edit_blocks(document: &Document<'_>, kids: Kids<'_>, edits: &mut Edits) {
    // Whether a block is before, without a blank line after it; and whether it stands apart.
    let mut is_after_block = false;
    let mut is_after_apart = false;
    for (_, kid) in kids {
        if kid.name == Name::BlankLineEnding {
            is_after_block = false;
        }
        if !is_between_blocks(kid.name) {
            let is_apart = stands_apart(kid.name);
            if is_after_block && (is_after_apart || is_apart) {
                put_blank_line(document, kid.start, edits);
            }
            is_after_block = true;
            is_after_apart = is_apart;
        }
    }
}

/// Puts a blank line before a block that starts at an index.
fn put_blank_line(document: &Document<'_>, index: usize, edits: &mut Edits) {
    let at = document.line_start(document.line_of(index));
    edits.begin_group();
    edits.edit(at, at);
    document.write_blank_prefix(index, edits);
    edits.write(document.ending());
}

/// What has blank lines around it, beside lists.
const APART: [Name; 5] = [
    Name::HeadingAtx,
    Name::HeadingSetext,
    Name::CodeFenced,
    Name::GfmTable,
    Name::ThematicBreak,
];

/// Whether blocks of a name have blank lines around them.
fn stands_apart(name: Name) -> bool {
    is_list(name) || APART.contains(&name)
}
