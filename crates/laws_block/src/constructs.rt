//! A construct that is off never occurs, at any depth.
ghost use Rattle.laws_block.specs.Occurs.{NoQuotes, NoItems, NoFootnoteDefinitions, NoIndentedCode, NoFencedCode, NoMath, NoHtml, NoTables, NoBreaks};
ghost use Rattle.laws_block.specs.Occurs.{NoDefinitions, NoHeadings, NoLongHeadings, NoDeepHeadings, NoLists, NoFrontmatter};
ghost use Rattle.laws_block.specs.Plain.{OnlyPlain};

/// Where block quotes are off, no text has a quote.
#[tactic(auto, using(crate::proofs::Occurs::no_quotes))]
pub fn block_quote_law()
    ensures { NoQuotes }
{}

/// Where list items are off, no text has an item.
#[tactic(auto, using(crate::proofs::Occurs::no_items))]
pub fn list_item_law()
    ensures { NoItems }
{}

/// Where footnote definitions are off, no text has one.
#[tactic(auto, using(crate::proofs::Occurs::no_footnote_definitions))]
pub fn gfm_footnote_definition_law()
    ensures { NoFootnoteDefinitions }
{}

/// Where indented code is off, no text has it.
#[tactic(auto, using(crate::proofs::Occurs::no_indented_code))]
pub fn code_indented_law()
    ensures { NoIndentedCode }
{}

/// Where fenced code is off, no text has it.
#[tactic(auto, using(crate::proofs::Occurs::no_fenced_code))]
pub fn code_fenced_law()
    ensures { NoFencedCode }
{}

/// Where math is off, no text has it.
#[tactic(auto, using(crate::proofs::Occurs::no_math))]
pub fn math_flow_law()
    ensures { NoMath }
{}

/// Where HTML blocks are off, no text has one.
#[tactic(auto, using(crate::proofs::Occurs::no_html))]
pub fn html_flow_law()
    ensures { NoHtml }
{}

/// Where tables are off, no text has one.
#[tactic(auto, using(crate::proofs::Occurs::no_tables))]
pub fn gfm_table_law()
    ensures { NoTables }
{}

/// Where thematic breaks are off, no text has one.
#[tactic(auto, using(crate::proofs::Occurs::no_breaks))]
pub fn thematic_break_law()
    ensures { NoBreaks }
{}

/// Where link reference definitions are off, no text has one.
#[tactic(auto, using(crate::proofs::Occurs::no_definitions))]
pub fn definition_law()
    ensures { NoDefinitions }
{}

/// Where ATX and setext headings are off, no text has a heading.
#[tactic(auto, using(crate::proofs::Occurs::no_headings))]
pub fn heading_law()
    ensures { NoHeadings }
{}

/// Where setext headings are off, each heading of a text has one line. On which lines of the text headings stand, with either
/// construct off, `lines_law` and `heading_lines_law` say.
#[tactic(auto, using(crate::proofs::Occurs::no_long_headings))]
pub fn heading_setext_law()
    ensures { NoLongHeadings }
{}

/// Where ATX headings are off, no heading of a text has a rank above 2. That each has an underline then, too, `lines_law` and
/// `heading_lines_law` say.
#[tactic(auto, using(crate::proofs::Occurs::no_deep_headings))]
pub fn heading_atx_law()
    ensures { NoDeepHeadings }
{}

/// Where list items are off, no text has a list: putting items into lists leaves its blocks as they are.
#[tactic(auto, using(crate::proofs::Occurs::no_lists))]
pub fn list_law()
    ensures { NoLists }
{}

/// Where frontmatter is off, each line of a text is one of its blocks' lines, from the first on.
#[tactic(auto, using(crate::proofs::Occurs::no_frontmatter))]
pub fn frontmatter_law()
    ensures { NoFrontmatter }
{}

/// Where all constructs that make blocks are off, a text has only paragraphs, endings and blank lines.
#[tactic(auto, using(crate::proofs::Plain::only_plain))]
pub fn plain_law()
    ensures { OnlyPlain }
{}
