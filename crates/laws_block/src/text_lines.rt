//! On which lines of a text its blocks stand.
ghost use Rattle.laws_block.specs.TextLines.{BlocksAreOnLines, HeadingsAreOfLines};

/// The blocks of a text, items put into lists, stand on its lines one after another, from the first
/// line after the frontmatter to the last. A heading by `#` has one line; a heading by an underline
/// has the lines of its content and that of the underline.
#[tactic(auto, using(crate::proofs::TextLines::blocks_are_on_lines))]
pub fn lines_law()
    ensures { BlocksAreOnLines }
{}

/// Where ATX headings are off, a heading has the lines of its content and that of an underline.
/// Where setext headings are off, it has one line.
#[tactic(auto, using(crate::proofs::TextLines::headings_are_of_lines))]
pub fn heading_lines_law()
    ensures { HeadingsAreOfLines }
{}
