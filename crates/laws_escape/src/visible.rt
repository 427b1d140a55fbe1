//! What is visible with every construct off.
ghost use Rattle.laws_escape.specs.Visible.{PrintedVisibleLaw, VisibleLaw};

/// Where every construct is off, what stands in a page outside of tags and line endings is what the text's nonblank lines hold, trimmed, encoded and joined.
/// This is a law of the page as it is printed.
#[tactic(auto, using(crate::proofs::VisibleText::printed_visible_law))]
pub fn printed_visible_law()
    ensures { PrintedVisibleLaw }
{}

/// The same of the HTML of a text, where raw HTML isn't kept by the list.
#[tactic(auto, using(crate::proofs::VisibleText::visible_law))]
pub fn visible_law()
    ensures { VisibleLaw }
{}
