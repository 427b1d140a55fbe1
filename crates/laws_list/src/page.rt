//! The law of the page of a text with `+ ` before its first line and two spaces before every other.
ghost use Rattle.laws_list.specs.PageLaws.{ListPageLaw, PrintedListLaw};

/// Where items are on, and frontmatter, footnote definitions and task list items off, a text
/// without tabs and byte order mark, whose first line isn't empty and doesn't begin with a space,
/// and of whose blocks two neighbours have a line between them, prints so a list of one item around
/// what it prints alone: the two pages are the same without the runs of line endings at their start
/// and end, after `>` and before `<`.
///
/// This is a law of the page as it is printed: where raw HTML is kept by the list of tags, it stands
/// as text in elements without a name.
#[tactic(auto, using(crate::proofs::PageLaw::printed_list_law))]
pub fn printed_list_law()
    ensures { PrintedListLaw }
{}

/// The same of the HTML of a text, where raw HTML isn't kept by the list of tags.
#[tactic(auto, using(crate::proofs::PageLaw::list_page_law))]
pub fn list_page_law()
    ensures { ListPageLaw }
{}
