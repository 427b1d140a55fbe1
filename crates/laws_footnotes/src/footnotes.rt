//! Footnotes of a page (in no standard; as GitHub prints them).
ghost use Rattle.laws_footnotes.specs.Defined.{CallHasDefinitionLaw};
ghost use Rattle.laws_footnotes.specs.Footnotes.{AroundLaw, ContentLaw, CountLaw, CountedCallsLaw, NoCallLaw, NumberLaw, PlainContentLaw};
ghost use Rattle.laws_footnotes.specs.Ids.{IdsDifferLaw};
ghost use Rattle.laws_footnotes.specs.Section.{PrintedCallLaw, SectionLaw};

/// A page that calls no footnote has no section of them: its HTML is what stands outside of footnotes alone.
#[tactic(auto, using(crate::proofs::Called::no_call_law))]
pub fn no_call_law()
    ensures { NoCallLaw }
{}

/// What is counted of the calls depends on the calls alone, in their order.
#[tactic(auto, using(crate::proofs::Called::counted_calls_law))]
pub fn counted_calls_law()
    ensures { CountedCallsLaw }
{}

/// A footnote's count is how many calls name it, printed or not.
#[tactic(auto, using(crate::proofs::Called::count_law))]
pub fn count_law()
    ensures { CountLaw }
{}

/// A first call gives its footnote the next number, and any other call changes no number.
#[tactic(auto, using(crate::proofs::Numbers::number_law))]
pub fn number_law()
    ensures { NumberLaw }
{}

/// What stands around a footnote goes on as if it weren't there.
#[tactic(auto, using(crate::proofs::Contents::around_law))]
pub fn around_law()
    ensures { AroundLaw }
{}

/// The content of a footnote is what stands between its start and its end, outside of footnotes in it.
#[tactic(auto, using(crate::proofs::Contents::content_law))]
pub fn content_law()
    ensures { ContentLaw }
{}

/// Outside of footnotes stands all of pieces that neither start nor end one.
#[tactic(auto, using(crate::proofs::Contents::plain_content_law))]
pub fn plain_content_law()
    ensures { PlainContentLaw }
{}

/// A page is its text, and then the section of the footnotes that it calls: each once, in the order of first calls.
#[tactic(auto, using(crate::proofs::Section::section_law))]
pub fn section_law()
    ensures { SectionLaw }
{}

/// Each call of a page, printed or not, leads to a footnote of the document with its label.
#[tactic(auto, using(crate::proofs::Defined::call_has_definition_law))]
pub fn call_has_definition_law()
    ensures { CallHasDefinitionLaw }
{}

/// A call prints the number that its footnote has in the section, and which call of it this is.
#[tactic(auto, using(crate::proofs::Printed::printed_call_law))]
pub fn printed_call_law()
    ensures { PrintedCallLaw }
{}

/// The ids of a page's headings differ from one another, and from those of footnotes, calls and the
/// heading of footnotes.
pub fn ids_differ_law()
    ensures { IdsDifferLaw }
{}
