//! Rows of blocks that hold no others (CommonMark 4).
ghost use Rattle.std.specs.Prelude.{◌≡◌, ◌<◌, OnOk, slice_index, true, ℕ};
ghost use Rattle.parse_output.specs.Children.{holds_blocks};
ghost use Rattle.parse_lines.specs.Open.{still_open};
ghost use Rattle.block_rows.specs.Rows.{row_value};
ghost use Rattle.definition_inline.specs.Targets.{Targets};
ghost use Rattle.text_pieces.specs.Pieces.{piece_lines};
ghost use Rattle.parse_leaves.specs.Rows.{AreLinesOf, WritesRow};
ghost use Rattle.parse_leaves.specs.Texts.{KnowsTargets, reading_by};

use crate::buffers::Buffers;
use crate::definition::push_definition;
use crate::heading::push_any_heading;
use crate::paragraph::{push_paragraph, push_whole_paragraph};
use block_rows::Row;
use markdown_options::Tables;
use parse_lines::Walk;
use parse_raw::{
    Texts, push_fenced_code, push_html, push_indented_code, push_thematic_break,
    push_unclosed_code, push_whole_code,
};
use std::alloc::{AllocError, Allocator};
use text_pieces::Piece;

/// The block of a row, whose first line is begun, and of the lines that the row takes. A paragraph that
/// is the first block of an item may begin with a check (GFM 5.3). Tables, containers, endings and blank
/// lines write nothing here.
pub fn push_leaf<'a, T: Tables, A: Allocator + Clone>(
    walk: &mut Walk<'_, A>,
    texts: &Texts<'a, '_, T, A>,
    buffers: &mut Buffers<'a, A>,
    first: bool,
    row: Row,
    lines: &[Piece<'a>],
) -> Result<(), AllocError>
    requires blocks { holds_blocks (still_open walk.old) ≡ true }
    ensures open { OnOk result (still_open walk.new ≡ still_open walk.old) }
    ensures written { OnOk result ((ds : Targets) → KnowsTargets texts.now ds → AreLinesOf row (piece_lines lines.now)
        → WritesRow (reading_by T.Tables texts.now ds) first (row_value row (piece_lines lines.now)) walk.old walk.new) }
{
    match row {
        Row::Paragraph(_) => push_paragraph(walk, texts, buffers, first, lines),
        Row::WholeParagraph => match lines {
            [line, ..] => push_whole_paragraph(walk, texts, buffers, first, bytes_only(line.text)),
            [] => Ok(()),
        },
        Row::Heading(rank) => { push_any_heading(walk, texts, buffers, rank, lines) }
        Row::SetextHeading { rank, count: _ } => {
            push_any_heading(walk, texts, buffers, rank, lines)
        }
        Row::Break => push_thematic_break(walk),
        Row::IndentedCode(count) => push_indented_code(walk, count),
        Row::FencedCode(count) => push_fenced_code(walk, texts, count),
        Row::UnclosedCode(count) => push_unclosed_code(walk, texts, count),
        Row::WholeCode => match lines {
            [_, line, ..] => push_whole_code(walk, texts, bytes_only(line.text)),
            _ => Ok(()),
        },
        Row::Html(count) => push_html(walk, count),
        Row::Definition(_) => push_definition(walk, texts, buffers, lines),
        Row::Table(_)
        | Row::EnterQuote
        | Row::EnterItem { .. }
        | Row::EnterFootnote
        | Row::Exit
        | Row::Ending(_)
        | Row::Blank(_) => Ok(()),
    }
}

/// A text: its bytes are below 256.
fn bytes_only(text: &str) -> &str
    ensures same { result.now ≡ text.now }
    ensures bytes { (k : ℕ) → slice_index result.now k < 256 }
{
    text
}
