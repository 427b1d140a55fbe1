//! What the grammar of events asks of a list: from the page that its nodes spell, and from what their writers know.
#![tactic(auto)]

ghost use Rattle.parse_grammar.specs.LabelLaws.{LabelsAreThere, LeavesLeadOn, ReadLeavesLead};
ghost use Rattle.parse_grammar.specs.LeadingLaws.{DocumentsAgreeInCells, DocumentsLeadOn};
ghost use Rattle.parse_grammar.specs.ConstructLaws.{DocumentsHaveNothingOff};
ghost use Rattle.parse_grammar.specs.MatchLaws.{MetGrammarMatches, TokensFit};
ghost use Rattle.parse_grammar.specs.ShapeLaws.{SoundNodesHold};

/// Every leaf that is read leads on.
#[tactic(auto, using(crate::proofs::LabelLeaves::read_leaves_lead))]
pub fn read_leaves_law()
    ensures { ReadLeavesLead }
{}

/// So do the nodes that spell leaves which are alike, tables apart.
pub fn leaves_law()
    ensures { LeavesLeadOn }
{}

/// Labels of definitions and of footnotes are those of nodes.
#[tactic(auto, using(crate::proofs::There::labels_are_there))]
pub fn labels_law()
    ensures { LabelsAreThere }
{}

/// No link and no call in a document is in another, and each reference has a definition.
pub fn leading_law()
    ensures { DocumentsLeadOn }
{}

/// Each row of delimiters has as many cells as the head of its table.
pub fn cells_law()
    ensures { DocumentsAgreeInCells }
{}

/// No event of a document is of a construct that is off.
pub fn constructs_law()
    ensures { DocumentsHaveNothingOff }
{}

/// A list of events matches the grammar if its nodes fill the row of the document, are sound, lead on
/// and agree in cells, it is told byte by byte, and its tokens have their bytes.
#[tactic(auto, using(crate::proofs::MatchLaw::met_grammar_matches))]
pub fn matches_law()
    ensures { MetGrammarMatches }
{}

/// The places of a list that is told byte by byte are those of the grammar, if its tokens have their bytes.
#[tactic(auto, using(crate::proofs::Places::places_fit))]
pub fn places_law()
    ensures { TokensFit }
{}

/// Strings, raw HTML, paragraphs and the texts of headings among the events of sound nodes hold something,
/// raw HTML in texts begins with a `<`, and calls of footnotes hold what strings may hold.
#[tactic(auto, using(crate::proofs::Shape::sound_nodes_hold))]
pub fn shape_law()
    ensures { SoundNodesHold }
{}
