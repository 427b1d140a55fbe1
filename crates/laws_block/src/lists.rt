//! Items in lists.
ghost use Rattle.laws_block.specs.GroupedRows.{ListsOnlyGroup};
ghost use Rattle.laws_block.specs.ItemMarkers.{ItemsAreMarked};
ghost use Rattle.laws_block.specs.Looseness.{LoosenessIsOfLines, OnlyLoosenessIsTold};
ghost use Rattle.laws_block.specs.Neighbours.{NeighboursAreListed, OthersPartLists};

/// Two items between which only endings stand are in one list if they have the same marker, and otherwise the first ends a list and the second begins the next.
#[tactic(auto, using(crate::proofs::Neighbours::neighbours_are_listed))]
pub fn neighbours_law()
    ensures { NeighboursAreListed }
{}

/// A block that is no item and no ending parts lists: none goes on over it.
#[tactic(auto, using(crate::proofs::Neighbours::others_part_lists))]
pub fn parted_law()
    ensures { OthersPartLists }
{}

/// Each item of a text has the marker `-`, `+`, `*`, `.` or `)`.
#[tactic(auto, using(crate::proofs::Occurs::items_are_marked))]
pub fn marker_law()
    ensures { ItemsAreMarked }
{}

/// Putting items into lists adds no row, loses none, and keeps their order.
#[tactic(auto, using(crate::proofs::GroupedRows::lists_only_group))]
pub fn grouped_law()
    ensures { ListsOnlyGroup }
{}

/// A list is loose exactly if some two neighbouring items, or some two neighbouring children of one
/// item, have a line between them: one after the last line of the first, and before the first line
/// of the second (CommonMark 5.3).
#[tactic(auto, using(crate::proofs::Looseness::looseness_is_of_lines))]
pub fn looseness_law()
    ensures { LoosenessIsOfLines }
{}

/// Whatever tells this of lists tells the same as `is_loose`, of each list that stands on lines, as
/// those of a text do: no other definition of looseness has this law.
#[tactic(auto, using(crate::proofs::Looseness::only_looseness_is_told))]
pub fn looseness_told_law()
    ensures { OnlyLoosenessIsTold }
{}
