//! code-indented: a fence around code in place of an indent (CommonMark 4.4, 4.5).
//!
//! A fence can name its language, and doesn't depend on the lists around it.
//!
//! Example: `a` after four spaces becomes a line of three backticks, `a`, and another such line.
use crate::code_fenced::write_fence;
use engine_events::event::Name;
use format_document::{Document, Node};
use format_edits::Edits;

/// Makes indented code fenced.
pub fn edit(document: &Document<'_>, edits: &mut Edits) {
    let mut before: Option<&Node> = None;
    for (index, node) in document.nodes().iter().enumerate() {
        if let Some(indent) = before {
            if is_indent(indent, node, Name::CodeIndented)
                && indent.is_whole()
                && has_whole_indents(document, index)
            {
                edit_code(document, index, node, indent, edits);
            }
        }
        before = Some(node);
    }
}

/// Whether a node has a name, and the one before it is the white space that it starts after.
fn is_indent(indent: &Node, node: &Node, name: Name) -> bool {
    node.name == name && indent.name == Name::SpaceOrTab && indent.end == node.start
}

/// Whether no tab is cut by the indent of a line.
fn has_whole_indents(document: &Document<'_>, index: usize) -> bool {
    let mut before: Option<&Node> = None;
    for (_, kid) in document.kids(index) {
        if let Some(indent) = before {
            if is_indent(indent, kid, Name::CodeFlowChunk) && !indent.is_whole() {
                return false;
            }
        }
        before = Some(kid);
    }
    true
}

/// Puts a fence around code, and removes its indents.
fn edit_code(document: &Document<'_>, index: usize, code: &Node, indent: &Node, edits: &mut Edits) {
    edits.begin_group();
    edits.edit(indent.start, indent.end);
    write_fence(document.bytes_of(code), edits);
    edits.write(document.ending());
    document.write_prefix(indent.start, edits);
    remove_indents(document, index, edits);
    edits.edit(code.end, code.end);
    edits.write(document.ending());
    document.write_prefix(indent.start, edits);
    write_fence(document.bytes_of(code), edits);
}

/// Removes the indents of the lines of code after the first one.
fn remove_indents(document: &Document<'_>, index: usize, edits: &mut Edits) {
    let mut before: Option<&Node> = None;
    for (_, kid) in document.kids(index) {
        if let Some(indent) = before {
            if is_indent(indent, kid, Name::CodeFlowChunk) {
                edits.edit(indent.start, indent.end);
            }
        }
        before = Some(kid);
    }
}
