//! The content of a paragraph's lines (CommonMark 4.8).
//!
//!     content ::= (line ending)* line
//!     line    ::= space_for_a_column_of_a_tab* byte*
ghost use Rattle.std.specs.Prelude.{◌≡◌, ◌++◌, OnOk, map, replicate, string_bytes};
ghost use Rattle.definition_text.specs.Columns.{tab_column, code_byte};
ghost use Rattle.definition_text.specs.Lines.{ending_text};
ghost use Rattle.text_pieces.specs.Pieces.{piece_lines};
ghost use Rattle.definition_text.specs.Content.{content_text};

use crate::piece::Piece;
use markdown_options::LineEnding;
use std::alloc::{AllocError, Allocator};

/// Sets `content` to the content of these lines: a space for each remaining column of a tab, the
/// bytes of the lines, and all endings except the last.
pub fn join_lines<A: Allocator>(
    content: &mut String<A>,
    lines: &[Piece<'_>],
) -> Result<(), AllocError>
    ensures { OnOk result (string_bytes content.new ≡ content_text (piece_lines lines.now)) }
{
    content.clear();
    let mut waiting = None;
    for line in lines {
        push_ending(content, waiting)?;
        push_line(content, line.owed, line.text)?;
        waiting = line.ending;
    }
    Ok(())
}

/// Appends an ending, if there is one.
pub fn push_ending<A: Allocator>(
    content: &mut String<A>,
    ending: Option<LineEnding>,
) -> Result<(), AllocError>
    ensures { OnOk result (string_bytes content.new ≡ string_bytes content.old ++ ending_text ending) }
{
    match ending {
        Some(LineEnding::LineFeed) => content.push('\n'),
        Some(ending) => content.push_str(ending.as_str()),
        None => Ok(()),
    }
}

/// Appends a line without its ending.
pub fn push_line<A: Allocator>(
    content: &mut String<A>,
    owed: u8,
    text: &str,
) -> Result<(), AllocError>
    ensures { OnOk result (string_bytes content.new ≡ string_bytes content.old ++ map code_byte (replicate owed tab_column ++ text.now)) }
{
    push_columns(content, owed)?;
    content.push_str(text)
}

/// Appends a space for each remaining column of a tab.
pub fn push_columns<A: Allocator>(content: &mut String<A>, owed: u8) -> Result<(), AllocError>
    ensures { OnOk result (string_bytes content.new ≡ string_bytes content.old ++ replicate owed 32) }
{
    for _ in 0..owed {
        content.push_str(" ")?;
    }
    Ok(())
}
