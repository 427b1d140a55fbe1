//! Lines of code (CommonMark 4.4 and 4.5).
ghost use Rattle.std.specs.Prelude.{◌++◌, map, replicate, OnOk};
ghost use Rattle.definition_text.specs.Columns.{tab_column, code_byte};
ghost use Rattle.definition_text.specs.Encode.{encode};
ghost use Rattle.definition_text.specs.BlockLines.{own_lines};
ghost use Rattle.html_leaves.specs.CodeLines.{code_of};
ghost use Rattle.text_pieces.specs.Pieces.{piece_lines};
ghost use Rattle.html_escape.specs.Prints as escape;
ghost use Rattle.html_leaves.specs.Prints.{Prints, KeepsEnding};

use crate::page::Page;
use html_escape::push_encoded;
use std::alloc::{AllocError, Allocator};
use text_pieces::{Piece, push_columns, push_ending};

impl<A: Allocator + Clone> Page<A> {
    /// Prints lines of code without the last ending.
    pub fn code(&mut self, lines: &[Piece<'_>]) -> Result<(), AllocError>
        ensures default { KeepsEnding self.old self.new }
        ensures printed { OnOk result (Prints self.old self.new (code_of (own_lines (piece_lines lines.now)))) }
    {
        push_code_lines(&mut self.out.html, lines)
    }
}

/// Prints lines of code without the last ending.
fn push_code_lines<A: Allocator>(out: &mut String<A>, lines: &[Piece<'_>]) -> Result<(), AllocError>
    ensures { escape.Prints result out.old out.new (code_of (own_lines (piece_lines lines.now))) }
{
    let mut waiting = None;
    for line in lines {
        push_ending(out, waiting)?;
        push_code(out, line.owed, line.text)?;
        waiting = line.ending;
    }
    Ok(())
}

/// Prints a line of code: a space for each column that is left of a tab, and its text.
fn push_code<A: Allocator>(out: &mut String<A>, owed: u8, text: &str) -> Result<(), AllocError>
    ensures { escape.Prints result out.old out.new (encode (map code_byte (replicate owed tab_column ++ text.now))) }
{
    push_columns(out, owed)?;
    push_encoded(out, text)
}
