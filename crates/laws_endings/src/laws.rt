//! Laws of a text with another line ending in place of each LF.
ghost use Rattle.laws_endings.specs.Laws.{EndingLinesLaw, BlocksLaw, DefinitionsLaw, FootnotesLaw, LabelsLaw, InlinesLaw, CutCharacterLaw};

/// A text without CR, in which an ending stands in place of each LF, has the text's lines, each
/// with that ending in place of its own.
#[tactic(auto, using(crate::proofs::Lines::ending_lines_law))]
pub fn ending_lines_law()
    ensures { EndingLinesLaw }
{}

/// Its blocks are the text's blocks, each with that ending in place of each LF of its lines and
/// its contents.
#[tactic(auto, using(crate::proofs::Blocks::blocks_law))]
pub fn blocks_law()
    ensures { BlocksLaw }
{}

/// Its link reference definitions are the text's, in the same order, each with that ending in
/// place of each LF.
#[tactic(auto, using(crate::proofs::Matching::definitions_law))]
pub fn definitions_law()
    ensures { DefinitionsLaw }
{}

/// Its footnote definitions have the labels of the text's, in the same order.
#[tactic(auto, using(crate::proofs::Matching::footnotes_law))]
pub fn footnotes_law()
    ensures { FootnotesLaw }
{}

/// A label matches the same one of some labels, whichever ending stands in it and in them.
pub fn labels_law()
    ensures { LabelsLaw }
{}

/// The inline structure of a content, in which an ending stands in place of each LF, is the
/// content's, with that ending in place of each LF of its parts: where labels are defined, and
/// footnotes are called, whichever ending stands in the labels.
#[tactic(auto, using(crate::proofs::Contents::inlines_law))]
pub fn inlines_law()
    ensures { InlinesLaw }
{}

/// A character that an ending cuts, as only a text that isn't UTF-8 has it, is of another kind
/// before CR LF than before LF.
#[tactic(auto, using(crate::proofs::CutCharacters::cut_character_law))]
pub fn cut_character_law()
    ensures { CutCharacterLaw }
{}
