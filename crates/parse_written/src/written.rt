//! Inline structure as it is written in its content.
ghost use Rattle.parse_written.specs.Laws.{LaidLaw, LeafLaw, TailLaw, WrittenFromLaw, WrittenLaw};

/// The inline structure of a content is written in it, part by part, from its first code that is no
/// space or tab to its end.
#[tactic(auto, using(crate::proofs::Contents::written_law))]
pub fn written_law()
    ensures { WrittenLaw }
{}

/// The inline structure of a content that begins anywhere, also with spaces or inside a line, is
/// written in it from its first code to its end.
#[tactic(auto, using(crate::proofs::Contents::written_from_law))]
pub fn written_from_law()
    ensures { WrittenFromLaw }
{}

/// What is written as a tree is written from left to right: leaves, starts and ends, each at its place.
#[tactic(auto, using(crate::proofs::Laid::laid_law))]
pub fn laid_law()
    ensures { LaidLaw }
{}

/// A leaf has the form of its construct where it is written: an escape is a backslash and its byte, a
/// reference ends at the first `;`, code stands between two runs of as many backticks.
#[tactic(auto, using(crate::proofs::Forms::leaf_law))]
pub fn leaf_law()
    ensures { LeafLaw }
{}

/// What follows the text of a link or an image has its form: a resource, where one is read there, and
/// otherwise a label, where one is read, and otherwise `[]` or nothing.
pub fn tail_law()
    ensures { TailLaw }
{}
