//! The law of the page of a text with another line ending in place of each LF.
ghost use Rattle.laws_endings.specs.PageLaws.{EndingPageLaw, PrintedEndingLaw};
ghost use Rattle.laws_endings.specs.Refused.{RefusedRows};

/// A text in UTF-8 that has an LF, no CR and no `&`, with an ending in place of each LF, prints its
/// page with that ending in place of each LF. What the options say on a page holds no LF, either.
///
/// This is a law of the page as it is printed: where raw HTML is kept by the list, it stands as text
/// in elements without a name.
#[tactic(auto, using(crate::proofs::PageLaw::printed_ending_law))]
pub fn printed_ending_law()
    ensures { PrintedEndingLaw }
{}

/// The same of the HTML of a text, where raw HTML isn't kept by the list.
#[tactic(auto, using(crate::proofs::PageLaw::ending_page_law))]
pub fn ending_page_law()
    ensures { EndingPageLaw }
{}

/// Pages of texts with CR LF that the law refuses by itself.
#[tactic(auto, using(crate::proofs::Rows::refused_rows))]
pub fn refused_rows()
    ensures { RefusedRows }
{}
