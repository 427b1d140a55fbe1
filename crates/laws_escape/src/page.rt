//! The page of an escaped line.
ghost use Rattle.laws_escape.specs.EscapedPage.{EscapedPageLaw, PrintedEscapedLaw};

/// Where escapes are on, the page of a line with a backslash before each ASCII punctuation byte is
/// a paragraph of the line as text: of a line that isn't empty and has no tab, no space at either
/// end and no byte order mark at its front.
/// This is a law of the page as it is printed.
#[tactic(auto, using(crate::proofs::EscapedPage::printed_escaped_law))]
pub fn printed_escaped_law()
    ensures { PrintedEscapedLaw }
{}

/// The same of the HTML of the line, by all options of printing.
#[tactic(auto, using(crate::proofs::EscapedPage::escaped_page_law))]
pub fn escaped_page_law()
    ensures { EscapedPageLaw }
{}
