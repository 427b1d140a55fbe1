//! The law of the page of a text with `> ` before every line.
ghost use Rattle.laws_quote.specs.PageLaws.{PrintedQuoteLaw, PrintedQuotesLaw};
ghost use Rattle.laws_quote.specs.PageLaws.{QuotePageLaw, QuotePagesLaw, SqueezeRows};
ghost use Rattle.laws_quote.specs.Refused.{RefusedRows};

/// Where block quotes are on, and frontmatter and footnote definitions off, a text that has a byte,
/// no tab and no byte order mark, with `> ` before every line, prints a block quote around what it
/// prints alone: the two pages are the same without the runs of line endings at their start and
/// end, after `>` and before `<`.
///
/// This is a law of the page as it is printed: where raw HTML is kept by the list, it stands as text
/// in elements without a name.
#[tactic(auto, using(crate::proofs::PageLaw::printed_quote_law))]
pub fn printed_quote_law()
    ensures { PrintedQuoteLaw }
{}

/// The same with `> ` n times before every line: n block quotes, one in another.
#[tactic(auto, using(crate::proofs::PageLaw::printed_quotes_law))]
pub fn printed_quotes_law()
    ensures { PrintedQuotesLaw }
{}

/// The same of the HTML of a text, where raw HTML isn't kept by the list.
#[tactic(auto, using(crate::proofs::PageLaw::quote_page_law))]
pub fn quote_page_law()
    ensures { QuotePageLaw }
{}

/// The same with `> ` n times before every line.
#[tactic(auto, using(crate::proofs::PageLaw::quote_pages_law))]
pub fn quote_pages_law()
    ensures { QuotePagesLaw }
{}

/// What is left of some bytes without such runs.
#[tactic(auto, using(crate::proofs::Rows::squeeze_rows))]
pub fn squeeze_rows()
    ensures { SqueezeRows }
{}

/// Pages of quoted texts that the law refuses by itself.
#[tactic(auto, using(crate::proofs::Rows::refused_rows))]
pub fn refused_rows()
    ensures { RefusedRows }
{}
