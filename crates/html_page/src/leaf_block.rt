//! Leaf blocks, and the endings of lines, printed to a page.
ghost use Rattle.std.specs.Prelude.{◌≤◌, OnOk, length};
ghost use Rattle.definition_inline.specs.Targets.{Targets};
ghost use Rattle.block_rows.specs.Rows.{row_size, row_value};
ghost use Rattle.text_pieces.specs.Pieces.{piece_lines};
ghost use Rattle.html_contents.specs.Texts.{KnowsTargets, document_by};
ghost use Rattle.html_looseness.specs.Levels.{row_pieces};
ghost use Rattle.html_looseness.specs.Printable.{IsPrintableRow};
ghost use Rattle.html_leaves.specs.Prints.{LaysOut, KeepsEnding};

use block_rows::Row;
use html_blocks::{LeafPrinter, table};
use html_contents::Texts;
use html_looseness::Level;
use markdown_options::Tables;
use std::alloc::{AllocError, Allocator};
use text_pieces::Piece;

/// Prints a block, or the ending of a line. A block takes its lines from the front of these.
/// A definition (CommonMark 4.7) prints nothing, nor does any other row here.
pub(crate) fn print_leaf_block<'t, T: Tables, A: Allocator + Clone>(
    leaves: &mut LeafPrinter<'t, A>,
    texts: &Texts<'t, '_, T, A>,
    row: Row,
    level: Level,
    lines: &[Piece<'t>],
) -> Result<(), AllocError>
    requires enough { row_size row ≤ length lines.now }
    requires printable { IsPrintableRow (row_value row (piece_lines lines.now)) }
    ensures default { KeepsEnding leaves.old.page leaves.new.page }
    ensures printed { (ds : Targets) → KnowsTargets texts.now ds →
        let d = document_by T.Tables texts.now ds in
        OnOk result (LaysOut d.options.compile leaves.old.page leaves.new.page (row_pieces d level (row_value row (piece_lines lines.now)))) }
{
    let top = level.is_document();
    match row {
        Row::Paragraph(count) => leaves.paragraph(texts, level.tight, level.first, &lines[..count]),
        Row::WholeParagraph => {
            leaves.whole_paragraph(texts, level.tight, level.first, lines[0].text)
        }
        Row::Heading(rank) => leaves.heading_atx(texts, rank, &lines[0]),
        Row::SetextHeading { rank, count } => leaves.heading_setext(texts, rank, &lines[..count]),
        Row::Break => leaves.page.thematic_break(),
        Row::IndentedCode(count) => leaves.page.indented_code(&lines[..count]),
        Row::FencedCode(count) => {
            leaves.fenced_code(texts, lines[0].text, true, top, &lines[1..][..count])
        }
        Row::UnclosedCode(count) => {
            leaves.fenced_code(texts, lines[0].text, false, top, &lines[1..][..count])
        }
        Row::WholeCode => leaves.whole_code(texts, lines[0].text, lines[1].text),
        Row::Html(count) => leaves
            .page
            .html_block(&texts.options.compile, &lines[..count]),
        Row::Table(count) => {
            table(
                &mut leaves.page,
                &mut leaves.buffers,
                texts,
                &lines[..count],
            )
        }
        Row::Ending(ending) => leaves.line_ending(level, ending),
        Row::Definition(_)
        | Row::Blank(_)
        | Row::EnterQuote
        | Row::EnterItem { .. }
        | Row::EnterFootnote
        | Row::Exit => Ok(()),
    }
}
