//! The rows of the blocks of a text are laid in its lines.
#![tactic(auto)]

ghost use Rattle.parse_laid.specs.Begun.{LinesMayBeBegun};
ghost use Rattle.parse_laid.specs.EmptyRests.{NothingStaysNothing};
ghost use Rattle.parse_laid.specs.FirstLines.{FirstLinesAreIn};
ghost use Rattle.parse_laid.specs.HeadingSetext.{HeadingsAreTold};
ghost use Rattle.parse_laid.specs.Laid.{RowsAreLaid};
ghost use Rattle.parse_laid.specs.Outermost.{PrefixesAreInOrder};
ghost use Rattle.parse_laid.specs.ParserRows.{ParserRowsAreLaid};
ghost use Rattle.parse_laid.specs.Passed.{LeavesPassLines};
ghost use Rattle.parse_laid.specs.Refused.{RefusedRows};

/// The rows of the blocks of a text are laid in its lines, from the first one after the frontmatter
/// to the last. Each row says which lines are its own, after the prefixes of the containers that are
/// open before it.
#[tactic(auto, using(crate::proofs::Laid::rows_are_laid))]
pub fn laid_law()
    ensures { RowsAreLaid }
{}

/// The rows that the block parser makes are laid in the lines of the text: each with its own lines, at
/// the front of those that the rows before it left.
#[tactic(auto, using(crate::proofs::ParserRows::parser_rows_are_laid))]
pub fn parser_rows_law()
    ensures { ParserRowsAreLaid }
{}

/// A row leads to the same place if its line is begun before it, unless it is the ending of a block's
/// last line: then the line is begun already.
#[tactic(auto, using(crate::proofs::Begun::lines_may_be_begun))]
pub fn begun_law()
    ensures { LinesMayBeBegun }
{}

/// Where a row begins, other than the ending of a block's last line, a line is begun, or the next one
/// is in all open containers, or a line of the same paragraph is right before it.
#[tactic(auto, using(crate::proofs::FirstLines::first_lines_are_in))]
pub fn first_line_law()
    ensures { FirstLinesAreIn }
{}

/// A leaf leads to the ending of its last line. A paragraph, indented code, an HTML block, a table and
/// a definition have as many lines of the text as they hold, a thematic break and a heading by `#`
/// one, a heading by an underline one more for that, fenced code one or two more for its fences.
#[tactic(auto, using(crate::proofs::Passed::leaves_pass_lines))]
pub fn passed_law()
    ensures { LeavesPassLines }
{}

/// At no place there are both a heading by `#` and one by an underline: the first line tells.
#[tactic(auto, using(crate::proofs::HeadingSetext::headings_are_told))]
pub fn heading_law()
    ensures { HeadingsAreTold }
{}

/// The prefixes of containers are read one after another, from the outermost to the innermost, up to
/// the first that doesn't go on.
#[tactic(auto, using(crate::proofs::Outermost::prefixes_are_in_order))]
pub fn order_law()
    ensures { PrefixesAreInOrder }
{}

/// Where containers leave nothing of a line, those inside them go on and leave nothing, if no quote is
/// among them.
#[tactic(auto, using(crate::proofs::EmptyRests::nothing_stays_nothing))]
pub fn nothing_law()
    ensures { NothingStaysNothing }
{}

/// Rows that aren't laid: a line without a row, a line that isn't blank, a heading in a paragraph, and
/// an empty line in a quote.
#[tactic(auto, using(crate::proofs::Refused::refused_rows))]
pub fn refused_rows()
    ensures { RefusedRows }
{}
