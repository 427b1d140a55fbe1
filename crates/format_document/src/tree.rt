//! The tree of events.
use crate::node::Node;
use crate::prefix::{Prefix, is_prefix};
use engine_events::event::{Event, Kind, Name};
use engine_events::place::Point;
use std::alloc::{AllocError, Global};

/// The nodes of events, and the prefixes among them.
#[derive(Drop)]
pub(crate) struct Tree {
    /// Each node is followed by those in it.
    pub(crate) nodes: Vec<Node>,
    /// The prefixes of items and footnote definitions, in their order.
    pub(crate) prefixes: Vec<Prefix>,
    /// The numbers of the nodes that are entered and not exited.
    open: Vec<usize>,
}

impl Tree {
    /// The tree of events, which it takes: they have more memory than all else.
    pub(crate) fn of(alloc: Global, events: Vec<Event>) -> Result<Tree, AllocError> {
        let nodes = Vec::with_capacity(alloc, events.len() / 2)?;
        let mut tree = Tree {
            nodes,
            prefixes: Vec::new(alloc),
            open: Vec::new(alloc),
        };
        for event in &events {
            tree.add(event)?;
        }
        Ok(tree)
    }

    /// Adds an event.
    fn add(&mut self, event: &Event) -> Result<(), AllocError> {
        match event.kind {
            Kind::Enter => self.enter(event.name, event.point()),
            Kind::Exit => {
                self.exit(event.name, event.point());
                Ok(())
            }
        }
    }

    /// Enters a node at a point.
    fn enter(&mut self, name: Name, point: Point) -> Result<(), AllocError> {
        self.open.push(self.nodes.len())?;
        self.nodes.push(Node {
            name,
            is_cut_at_start: point.vs != 0,
            is_cut_at_end: false,
            start: point.index,
            end: point.index,
            size: 1,
        })?;
        if is_prefix(name) {
            self.prefixes.push(Prefix::starting(point))?;
        }
        Ok(())
    }

    /// Exits the innermost node at a point.
    fn exit(&mut self, name: Name, point: Point) {
        let Some(index) = self.open.pop() else {
            return;
        };
        let size = self.nodes.len().saturating_sub(index);
        if let Some(node) = self.nodes.get_mut(index) {
            node.end = point.index;
            node.is_cut_at_end = point.vs != 0;
            node.size = size;
        }
        self.note(name, point);
    }

    /// Notes the end of a prefix or of its marker, if such a node ends.
    fn note(&mut self, name: Name, point: Point) {
        if let Some(prefix) = self.prefixes.last_mut() {
            if is_prefix(name) {
                prefix.end_at(point);
            } else if name == Name::ListItemMarker {
                prefix.marker = point.index.saturating_sub(1);
            }
        }
    }
}
