//! Indented code (CommonMark 4.4).
//!
//!     start ::= column_of_space{4,}
ghost use Rattle.std.specs.Prelude.{◌≡◌};
ghost use Rattle.definition_block.specs.CodeIndented.{starts_code_indented as starts_code};
ghost use Rattle.block_starts.specs.View.{rest_of};

use crate::cursor::Cursor;
use markdown_options::Constructs;
use markdown_options::constants::CODE_INDENT;

/// Whether the line has the indent of code.
pub fn starts_code_indented(on: &Constructs, rest: Cursor<'_>) -> bool
    ensures { result ≡ starts_code on.now (rest_of rest.entry) }
{
    on.code_indented && rest.indent() >= CODE_INDENT
}
