//! A text with the tree of its events.
use crate::bytes::{between, last_spaces};
use crate::kids::Kids;
use crate::lines::{first_ending, line_starts};
use crate::names::is_between_blocks;
use crate::node::Node;
use crate::prefix::Prefix;
use crate::tree::Tree;
use engine_events::event::{Event, Name};
use format_edits::{Edits, Window};
use std::alloc::{AllocError, Global};

/// A text with the tree of its events.
#[derive(Drop)]
pub struct Document<'a> {
    bytes: &'a [u8],
    /// The line ending for new lines.
    ending: &'a [u8],
    tree: Tree,
    /// Where the lines start.
    lines: Vec<usize>,
    /// The parts that stay as they are.
    closed: Vec<Window>,
}

impl<'a> Document<'a> {
    /// The tree of the events of a text. `closed` are the parts of the text that no edit may change, in
    /// their order and apart.
    pub fn new(
        alloc: Global,
        bytes: &'a [u8],
        events: Vec<Event>,
        closed: Vec<Window>,
    ) -> Result<Document<'a>, AllocError> {
        let tree = Tree::of(alloc, events)?;
        let lines = line_starts(alloc, bytes)?;
        Ok(Document {
            bytes,
            ending: first_ending(bytes),
            tree,
            lines,
            closed,
        })
    }

    /// The parts of the text that no edit may change, in their order and apart.
    pub fn closed(&self) -> &[Window] {
        &self.closed
    }

    /// All bytes.
    pub fn bytes(&self) -> &'a [u8] {
        self.bytes
    }

    /// All nodes: each is followed by those in it.
    pub fn nodes(&self) -> &[Node] {
        &self.tree.nodes
    }

    /// The nodes in a node, at any depth.
    pub fn inside(&self, index: usize) -> &[Node] {
        let Some((node, others)) = self.nodes_from(index).split_first() else {
            return &[];
        };
        let size = node.size.saturating_sub(1).min(others.len());
        &others[..size]
    }

    /// The nodes from an index on.
    fn nodes_from(&self, index: usize) -> &[Node] {
        let nodes = self.nodes();
        if index <= nodes.len() {
            &nodes[index..]
        } else {
            &[]
        }
    }

    /// The nodes directly in a node, with their numbers.
    pub fn kids(&self, index: usize) -> Kids<'_> {
        Kids {
            nodes: self.inside(index),
            index: index.saturating_add(1),
        }
    }

    /// The nodes that are in no other, with their numbers.
    pub fn top(&self) -> Kids<'_> {
        Kids {
            nodes: self.nodes(),
            index: 0,
        }
    }

    /// The first node with a name directly in a node, with its number.
    pub fn kid(&self, index: usize, name: Name) -> Option<(usize, &Node)> {
        for (at, kid) in self.kids(index) {
            if kid.name == name {
                return Some((at, kid));
            }
        }
        None
    }

    /// The starts of the lines on which the blocks that are in no other start.
    pub fn blocks(&self, alloc: Global) -> Result<Vec<usize>, AllocError> {
        let mut starts = Vec::new(alloc);
        for (_, node) in self.top() {
            if !is_between_blocks(node.name) {
                starts.push(self.line_start(self.line_of(node.start)))?;
            }
        }
        Ok(starts)
    }

    /// The prefix of an item, by the number of its node.
    pub fn prefix_of(&self, item: usize) -> Option<&Prefix> {
        let (_, node) = self.kid(item, Name::ListItemPrefix)?;
        self.prefixes_from(node.start).first()
    }

    /// The prefixes of items and footnote definitions that start at an index or after it.
    fn prefixes_from(&self, index: usize) -> &[Prefix] {
        let prefixes = self.tree.prefixes.as_slice();
        let at = prefixes.partition_point(|prefix| prefix.start < index);
        if at <= prefixes.len() {
            &prefixes[at..]
        } else {
            &[]
        }
    }

    /// The bytes of a node.
    pub fn bytes_of(&self, node: &Node) -> &'a [u8] {
        between(self.bytes, node.start, node.end)
    }

    /// The bytes from an index to another, or none where there are no such bytes.
    pub fn between(&self, start: usize, end: usize) -> &'a [u8] {
        between(self.bytes, start, end)
    }

    /// The byte at an index, if there is one.
    pub fn byte_at(&self, index: usize) -> Option<u8> {
        self.bytes.get(index).copied()
    }

    /// The byte before an index, if there is one.
    pub fn byte_before(&self, index: usize) -> Option<u8> {
        self.byte_at(index.checked_sub(1)?)
    }

    /// Whether a line ends at an index.
    pub fn ends_line(&self, index: usize) -> bool {
        matches!(self.byte_at(index), None | Some(b'\n' | b'\r'))
    }

    /// The line ending for new lines: the first of the text, or LF if it has none.
    pub fn ending(&self) -> &'a [u8] {
        self.ending
    }

    /// The number of lines.
    pub fn line_count(&self) -> usize {
        self.lines.len()
    }

    /// The number from 1 of the line that an index is on.
    pub fn line_of(&self, index: usize) -> usize {
        match self.lines.binary_search(&index) {
            Ok(before) => before.saturating_add(1),
            Err(before) => before,
        }
    }

    /// Where a line starts, by its number from 1; the end of the text after the last one.
    pub fn line_start(&self, line: usize) -> usize {
        match self.lines.get(line.saturating_sub(1)) {
            Some(start) => *start,
            None => self.bytes.len(),
        }
    }

    /// The bytes of a line, by its number from 1, with its ending.
    pub fn line(&self, line: usize) -> &'a [u8] {
        let start = self.line_start(line);
        self.between(start, self.line_start(line.saturating_add(1)))
    }

    /// The bytes before an index on its line.
    pub fn before_on_line(&self, index: usize) -> &'a [u8] {
        self.between(self.line_start(self.line_of(index)), index)
    }

    /// Writes what a further line begins with, in the containers of a block that starts at an index:
    /// the bytes before it on its line, with white space in place of the prefixes of items.
    pub fn write_prefix(&self, index: usize, edits: &mut Edits) {
        let mut at = self.line_start(self.line_of(index));
        for prefix in self.prefixes_from(at) {
            if prefix.start >= index {
                break;
            }
            let end = prefix.end.min(index);
            edits.write(self.between(at, prefix.start));
            edits.write_blank(self.between(prefix.start, end));
            at = end;
        }
        edits.write(self.between(at, index));
    }

    /// Writes what a blank line has, in the containers of a block that starts at an index: the bytes of
    /// block quotes before it, without white space at their end.
    pub fn write_blank_prefix(&self, index: usize, edits: &mut Edits) {
        let before = self.before_on_line(index);
        let spaces = last_spaces(before);
        if spaces < before.len() {
            self.write_prefix(index.saturating_sub(spaces), edits);
        }
    }
}
