//! Where references of nodes lead.
#![tactic(auto)]

ghost use Rattle.parse_references.specs.Laws.{ContentsLead, NodesLeadOn, TextsLeadOn};

/// No link in the inline structure of a content holds another, and each reference has a definition.
#[tactic(auto, using(crate::proofs::Contents::contents_lead))]
pub fn contents_law()
    ensures { ContentsLead }
{}

/// So it is with the nodes of a text, where they spell inline structure that is alike.
#[tactic(auto, using(crate::proofs::Texts::texts_lead_on))]
pub fn texts_law()
    ensures { TextsLeadOn }
{}

/// Nodes lead on if both parts of them do, and no definition is missing in what leads on.
#[tactic(auto, using(crate::proofs::Nodes::nodes_lead_on))]
pub fn nodes_law()
    ensures { NodesLeadOn }
{}
