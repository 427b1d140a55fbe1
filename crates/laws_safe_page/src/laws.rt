//! Laws of the definition.
ghost use Rattle.laws_safe_page.specs.SafeHtml.{ExtendedPageLaw, ListedPageLaw, MarkedPageLaw, SafePageLaw, StandingPageLaw};

/// Under safe options that keep no raw HTML the HTML of a text is a safe page by the table of the
/// options, and has one reading as such.
#[tactic(auto, using(crate::proofs::SafeHtml::safe_page_law))]
pub fn safe_page_law()
    ensures { SafePageLaw }
{}

/// Under safe options that keep no raw HTML the HTML of a text is a safe page by the extended
/// table, and has one reading as such.
#[tactic(auto, using(crate::proofs::SafeHtml::extended_page_law))]
pub fn extended_page_law()
    ensures { ExtendedPageLaw }
{}

/// Under safe options the page of a text, as it is printed before its raw HTML is kept by the list,
/// is a safe page by the table of the options, but for raw HTML as text in elements without a name.
pub fn marked_page_law()
    ensures { MarkedPageLaw }
{}

/// Under safe options, with raw HTML that is kept by the list or without, the HTML of a text is a
/// safe page that may have tags of the list, and has one reading as such.
#[tactic(auto, using(crate::proofs::SafeHtml::listed_page_law))]
pub fn listed_page_law()
    ensures { ListedPageLaw }
{}

/// Under safe options that keep raw HTML by the list, the HTML of a text has the tags of the page
/// as it is printed, as they were, and raw tags of the list, each where it may stand in its level.
pub fn standing_page_law()
    ensures { StandingPageLaw }
{}
