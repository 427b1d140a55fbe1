//! A walk over the lines of a list.
use crate::columns::{Columns, content_columns};
use crate::list_lines::Lines;
use crate::number::{Numbers, write_number};
use engine_events::event::Name;
use engine_events::place::tab_size;
use format_document::{Document, Node, Prefix, is_list, trimmed};
use format_edits::Edits;
use std::alloc::Global;

/// A list that is open.
#[derive(Clone, Copy)]
struct List {
    /// The first node after it.
    past: usize,
    numbers: Numbers,
}

/// An item that is open.
#[derive(Clone, Copy)]
struct Item {
    /// The first node after it.
    past: usize,
    /// Its last line.
    line: usize,
    /// How many columns are before its content.
    columns: Columns,
}

/// A walk over the lines of an outermost list.
#[derive(Drop)]
pub(crate) struct Walk<'d, 't> {
    alloc: Global,
    document: &'d Document<'t>,
    lines: Lines,
    lists: Vec<List>,
    items: Vec<Item>,
    /// The first line that has no edits yet.
    line: usize,
}

impl<'d, 't> Walk<'d, 't> {
    /// A walk that begins at a list.
    pub(crate) fn new(
        alloc: Global,
        document: &'d Document<'t>,
        lines: Lines,
        list: &Node,
    ) -> Walk<'d, 't> {
        Walk {
            alloc,
            document,
            lines,
            lists: Vec::new(alloc),
            items: Vec::new(alloc),
            line: document.line_of(list.start),
        }
    }

    /// Adds the edits of an outermost list.
    pub(crate) fn outermost(&mut self, list: usize, node: &Node, edits: &mut Edits) {
        self.begin_list(list, node, edits);
        let mut index = list;
        let mut past = 0;
        for kid in self.document.inside(list) {
            index = index.saturating_add(1);
            if index < past {
                continue;
            }
            if kid.name == Name::BlockQuote {
                past = index.saturating_add(kid.size);
            } else if is_list(kid.name) {
                self.begin_list(index, kid, edits);
            } else if kid.name == Name::ListItem {
                self.begin_item(index, kid, edits);
            }
        }
        let last = self.document.line_of(node.end);
        self.edit_lines_before(last.saturating_add(1), edits);
    }

    /// Begins a list, of which nothing is written.
    fn begin_list(&mut self, index: usize, node: &Node, edits: &mut Edits) {
        let list = List {
            past: index.saturating_add(node.size),
            numbers: if node.name == Name::ListOrdered {
                Numbers::of(self.document, index)
            } else {
                Numbers::default()
            },
        };
        if self.lists.push(list).is_err() {
            edits.fail();
        }
    }

    /// Edits the lines before an item, its marker, and the white space beside it.
    fn begin_item(&mut self, index: usize, node: &Node, edits: &mut Edits) {
        let document = self.document;
        let line = document.line_of(node.start);
        self.edit_lines_before(line, edits);
        self.end_before(index);
        let number = self.next_number();
        let Some(prefix) = document.prefix_of(index) else {
            return;
        };
        let columns = self.edit_prefix(prefix, number, edits);
        self.line = self.line.max(line.saturating_add(1));
        let item = Item {
            past: index.saturating_add(node.size),
            line: document.line_of(node.end),
            columns,
        };
        if self.items.push(item).is_err() {
            edits.fail();
        }
    }

    /// Edits the prefix of an item. Returns how many columns are before its content.
    fn edit_prefix(&self, prefix: &Prefix, number: usize, edits: &mut Edits) -> Columns {
        let old = content_columns(self.document, prefix);
        let start = self.edit_indent(prefix, edits);
        let size = self.edit_marker(prefix, number, edits);
        let gap = self.edit_gap(prefix, old, edits);
        Columns {
            old,
            new: start.saturating_add(size).saturating_add(gap),
        }
    }

    /// Ends the lists and items that end before a node.
    fn end_before(&mut self, index: usize) {
        for _ in 0..self.lists.len() {
            match self.lists.last() {
                Some(list) if list.past <= index => self.lists.pop(),
                _ => break,
            };
        }
        for _ in 0..self.items.len() {
            match self.items.last() {
                Some(item) if item.past <= index => self.items.pop(),
                _ => break,
            };
        }
    }

    /// The number of the next item of the innermost list.
    fn next_number(&mut self) -> usize {
        match self.lists.last_mut() {
            Some(list) => list.numbers.next(),
            None => 0,
        }
    }

    /// How many columns are before the content of the innermost item.
    fn columns(&self) -> Columns {
        match self.items.last() {
            Some(item) => item.columns,
            None => Columns { old: 0, new: 0 },
        }
    }

    /// Edits the white space before the prefix of an item. Returns how many columns are before it then.
    fn edit_indent(&self, prefix: &Prefix, edits: &mut Edits) -> usize {
        let outer = self.columns();
        let before = self.document.before_on_line(prefix.start);
        let is_first = self.document.line_of(prefix.start) >= self.line
            && trimmed(before).is_empty();
        let offset = if is_first && self.lines.indent {
            0
        } else {
            prefix.start_columns.saturating_sub(outer.old)
        };
        let start = outer.new.saturating_add(offset);
        if is_first {
            edits.edit(prefix.start.saturating_sub(before.len()), prefix.start);
            edits.write_times(b' ', start);
        }
        start
    }

    /// Edits the number of an item. Returns how many bytes its number and its marker have then.
    fn edit_marker(&self, prefix: &Prefix, number: usize, edits: &mut Edits) -> usize {
        if !self.lines.number || prefix.marker == prefix.start {
            return prefix.marker_end().saturating_sub(prefix.start);
        }
        edits.edit(prefix.start, prefix.marker);
        write_number(self.alloc, number, edits).saturating_add(1)
    }

    /// Edits the white space after the marker of an item, whose content is after these columns. Returns how
    /// many columns it takes then.
    fn edit_gap(&self, prefix: &Prefix, old: usize, edits: &mut Edits) -> usize {
        let gap = if self.lines.marker_space {
            1
        } else {
            old.saturating_sub(prefix.marker_columns())
        };
        if prefix.marker_end() < prefix.end {
            // The columns of a tab that are part of the content, and stay.
            let kept = if prefix.is_cut {
                tab_size(prefix.end_columns.saturating_add(1))
            } else {
                0
            };
            let cut = usize::from(prefix.is_cut);
            edits.edit(prefix.marker_end(), prefix.end.saturating_add(cut));
            edits.write_times(b' ', gap.saturating_add(kept));
        }
        gap
    }

    /// Edits the lines before a line that have no edits yet.
    fn edit_lines_before(&mut self, line: usize, edits: &mut Edits) {
        for at in self.line..line {
            self.end_items_before(at);
            if let Some(item) = self.items.last() {
                item.columns.edit_line(self.document, at, edits);
            }
        }
        self.line = self.line.max(line);
    }

    /// Ends the items whose last line is before a line.
    fn end_items_before(&mut self, line: usize) {
        for _ in 0..self.items.len() {
            match self.items.last() {
                Some(item) if item.line < line => self.items.pop(),
                _ => break,
            };
        }
    }
}
