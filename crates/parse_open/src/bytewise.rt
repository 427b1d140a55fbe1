//! Data spells the same, joined or byte by byte.
ghost use Rattle.parse_open.specs.BytewiseExamples.{RefusedExample};
ghost use Rattle.parse_open.specs.BytewiseLaws.{EventsSpellTheSame, GrammarIsSound, LabelsAreTheSame, PagesSpellTheSame, StringsSpellTheSame, TextsSpellTheSame};

/// A string spells the same with its data cut into bytes.
#[tactic(auto, using(crate::proofs::BytewiseStrings::strings_spell_the_same))]
pub fn strings_law()
    ensures { StringsSpellTheSame }
{}

/// The label of a link, an image or a call is the same.
pub fn labels_law()
    ensures { LabelsAreTheSame }
{}

/// A text spells the same, in a link or outside.
pub fn texts_law()
    ensures { TextsSpellTheSame }
{}

/// Nodes spell the same page with their data cut into bytes.
pub fn pages_law()
    ensures { PagesSpellTheSame }
{}

/// Nodes of a list in the grammar are such nodes: places are in order, data holds no other, and stands
/// in no place where it counts what is last.
pub fn grammar_law()
    ensures { GrammarIsSound }
{}

/// A list of events in the grammar spells the page of its nodes with their data cut into bytes. So it
/// doesn't matter how data is joined where a list is made.
pub fn events_law()
    ensures { EventsSpellTheSame }
{}

/// The page of nodes with empty data isn't that of their bytes: what comes before it would be last.
pub fn refused_example()
    ensures { RefusedExample }
{}
