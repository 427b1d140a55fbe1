//! Nodes side by side.
ghost use Rattle.std.specs.Prelude.{length};
ghost use Rattle.std.specs.Iterator.{at_most};

use crate::node::Node;

/// Nodes side by side, with their numbers.
#[derive(Drop)]
pub struct Kids<'a> {
    /// The nodes from the next one on, with those in them.
    pub(crate) nodes: &'a [Node],
    /// The number of the next one.
    pub(crate) index: usize,
}

impl<'a> Iterator for Kids<'a> {
    type Item = (usize, &'a Node);

    ghost remaining = { λ s. at_most (length s.nodes.now) };

    fn next(&mut self) -> Option<(usize, &'a Node)> {
        let (node, others) = self.nodes.split_first()?;
        let index = self.index;
        let size = node.size.saturating_sub(1).min(others.len());
        self.nodes = &others[size..];
        self.index = index.saturating_add(size).saturating_add(1);
        Some((index, node))
    }
}
