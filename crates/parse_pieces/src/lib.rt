//! Pieces of the definition, as nodes in a text, and their places there.
#![tactic(auto)]

ghost use Rattle.parse_pieces.specs.Laws.{DraftsReachEnds, DraftsSayNodes, TreesHaveNodes};
ghost use Rattle.parse_pieces.specs.PlaceLaws.{DraftsAreNested, EventsAreDrafted, EventsHaveNodes, MergedHaveNodes};

/// The drafts of pieces lead from where these begin to where they end. What they say of a text are the
/// nodes of the pieces, and the tree of their events has these.
#[tactic(auto, using(crate::proofs::Drafts::pieces_end, crate::proofs::Drafts::pieces_drafted, crate::proofs::Drafts::pieces_tree))]
pub fn drafts_law()
    ensures ends { DraftsReachEnds }
    ensures nodes { DraftsSayNodes }
    ensures tree { TreesHaveNodes }
{}

/// Where the codes of pieces come in a text, their events by the definition are those of their drafts. The
/// tree of these events has the nodes of the pieces, however data is joined. The drafts leave nothing open.
#[tactic(auto, using(crate::proofs::Events::all_events, crate::proofs::Events::all_nodes, crate::proofs::Nested::all_nested, crate::proofs::Merged::merged_nodes))]
pub fn events_law()
    ensures events { EventsAreDrafted }
    ensures nodes { EventsHaveNodes }
    ensures nested { DraftsAreNested }
    ensures merged { MergedHaveNodes }
{}
