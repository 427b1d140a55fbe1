//! Laws of a text with `+ ` before its first line and two spaces before every other.
ghost use Rattle.laws_list.specs.Laws.{ListedLinesLaw, ListLaw, ListDefinitionsLaw};

/// A text with `+ ` before its first line and two spaces before every other has the text's lines,
/// each with these before its content.
#[tactic(auto, using(crate::proofs::Lines::listed_lines_law))]
pub fn listed_lines_law()
    ensures { ListedLinesLaw }
{}

/// Where items are on and frontmatter off, a text without tabs, whose first line isn't empty and
/// doesn't begin with a space, is so one item of the same blocks, with the endings at its end after
/// it.
#[tactic(auto, using(crate::proofs::Items::list_law))]
pub fn list_law()
    ensures { ListLaw }
{}

/// Its link reference definitions are the text's.
#[tactic(auto, using(crate::proofs::Items::list_definitions_law))]
pub fn list_definitions_law()
    ensures { ListDefinitionsLaw }
{}
