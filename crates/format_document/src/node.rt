//! What events enter and exit.
use engine_events::event::Name;
use std::mem::size_of;

/// What an event enters and another exits, with what is between them.
#[derive(Clone, Copy)]
pub struct Node {
    pub name: Name,
    /// Whether a tab is cut at its start, so that some of its columns are before the node.
    pub is_cut_at_start: bool,
    /// Whether a tab is cut at its end.
    pub is_cut_at_end: bool,
    /// How many bytes are before it.
    pub start: usize,
    /// How many bytes are before its end.
    pub end: usize,
    /// The number of nodes in it and of itself.
    pub size: usize,
}

const _: () = prove!(size_of::<Node>() <= 32);

impl Node {
    /// Whether no tab is cut at its start or its end.
    pub fn is_whole(&self) -> bool {
        !self.is_cut_at_start && !self.is_cut_at_end
    }
}
