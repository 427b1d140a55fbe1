//! Laws of a text with `> ` before every line.
ghost use Rattle.laws_quote.specs.Laws.{QuotedLinesLaw, QuoteLaw, QuotesLaw, QuoteDefinitionsLaw};

/// A text with `> ` before every line has the text's lines, each with `> ` before its content and with the same ending.
#[tactic(auto, using(crate::proofs::Lines::quoted_lines_law))]
pub fn quoted_lines_law()
    ensures { QuotedLinesLaw }
{}

/// Where block quotes are on and frontmatter is off, a text that has a byte and no tab, with `> ` before every line,
/// is one quote: it holds the text's blocks, and the ending of the last line stands after it.
#[tactic(auto, using(crate::proofs::Quotes::quote_law))]
pub fn quote_law()
    ensures { QuoteLaw }
{}

/// The same with `> ` n times before every line: n quotes, one in another, of which the innermost holds the text's blocks.
#[tactic(auto, using(crate::proofs::Quotes::quotes_law))]
pub fn quotes_law()
    ensures { QuotesLaw }
{}

/// The link reference definitions of such a text are the same, in the same order, with `> ` before every line.
#[tactic(auto, using(crate::proofs::Quotes::quote_definitions_law))]
pub fn quote_definitions_law()
    ensures { QuoteDefinitionsLaw }
{}
