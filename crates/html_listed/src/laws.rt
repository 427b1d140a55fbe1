//! Laws of pages whose raw HTML is kept by the list.
ghost use Rattle.html_listed.specs.Laws.{ListedLaw, OneElementLaw, OneListedReading, OneSpelling, PlainTextLaw, SanitizedLaw, StandingLaw, UnmarkedLaw};

/// Items whose names are made of letters, digits and `-` have one spelling each.
#[tactic(auto, using(crate::proofs::Spellings::one_spelling))]
pub fn one_spelling_law()
    ensures { OneSpelling }
{}

/// A listed page has one reading.
#[tactic(auto, using(crate::proofs::Spellings::one_listed_reading))]
pub fn one_listed_reading_law()
    ensures { OneListedReading }
{}

/// A safe page with raw HTML as text in elements without a name becomes a listed page, which has
/// one reading, by either table of tags. The options permit only safe protocols; the names of
/// references may be any.
#[tactic(auto, using(crate::proofs::Listed::listed_law))]
pub fn listed_law()
    ensures { ListedLaw }
{}

/// That listed page has the page's own tags, as they were, and raw tags of the list, each where it may
/// stand in its level.
#[tactic(auto, using(crate::proofs::Listed::standing_law))]
pub fn standing_law()
    ensures { StandingLaw }
{}

/// A safe page without raw HTML stays as it is.
pub fn unmarked_law()
    ensures { UnmarkedLaw }
{}

/// HTML as text in one element without a name becomes what is kept of the HTML. NUL counts as
/// U+FFFD.
#[tactic(auto, using(crate::proofs::OneElement::one_element_law))]
pub fn one_element_law()
    ensures { OneElementLaw }
{}

/// What is kept of any HTML is a page with tags of the list alone, whose elements stand where they
/// may, and has one reading. The options permit only safe protocols; the HTML and the names of
/// references may be any.
#[tactic(auto, using(crate::proofs::Sanitized::sanitized_law))]
pub fn sanitized_law()
    ensures { SanitizedLaw }
{}

/// HTML without `<` and `&` is printed as text.
#[tactic(auto, using(crate::proofs::PlainText::plain_text_law))]
pub fn plain_text_law()
    ensures { PlainTextLaw }
{}
