//! Events before they have their places.

use engine_events::event::Name;

/// An event, or the two of what holds no other.
#[derive(Clone, Copy)]
pub enum Draft {
    /// Something begins where the draft before ends.
    Enter(Name),
    /// Something ends where the draft before ends.
    Exit(Name),
    /// Something that holds no other begins where the draft before ends. It ends at an index, before this
    /// many columns of the tab at it.
    Void { name: Name, owed: u8, index: usize },
}
