//! Labels and references.
ghost use Rattle.laws_inline.specs.LabelPairs.{ScanReads};
ghost use Rattle.laws_inline.specs.Matching.{LabelsMatch, NoLabelMatches, FirstLabelMatches};
ghost use Rattle.laws_inline.specs.References.{ReferencesAreDefined};

/// Two labels match exactly if their folded texts are equal (CommonMark 6.3).
#[tactic(auto, using(crate::proofs::Matching::labels_match))]
pub fn labels_match_law()
    ensures { LabelsMatch }
{}

/// A label matches none of some labels exactly if each of them has another folded text (CommonMark 6.3).
pub fn no_match_law()
    ensures { NoLabelMatches }
{}

/// Of several labels with the folded text of a label the first one is matched (CommonMark 6.3).
#[tactic(auto, using(crate::proofs::Matching::first_label_matches))]
pub fn first_match_law()
    ensures { FirstLabelMatches }
{}

/// Every reference leads to a label that is defined, and every call to that of a footnote definition, at any level of nesting (CommonMark 6.3 and 6.4).
#[tactic(auto, using(crate::proofs::References::references_are_defined))]
pub fn references_law()
    ensures { ReferencesAreDefined }
{}

/// Each label start goes together with the `]` that matches it as parentheses do, and forms what the text between and what follows say (CommonMark 6.3).
#[tactic(auto, using(crate::proofs::LabelPairs::scan_reads_by_pairs))]
pub fn label_pairs_law()
    ensures { ScanReads }
{}
