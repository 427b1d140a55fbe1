//! Rows of names and texts, of a caller's file.
ghost use Rattle.std.specs.Prelude.{◌≡◌, ◌⊎◌, ℕ, List, IfOk, IfErr};
ghost use Rattle.definition_inline.specs.ReferenceRows.{text_in, rows};
ghost use Rattle.markdown_tables.specs.Rows.{texts_of};
ghost use Rattle.markdown_tables.specs.RowsFaults.{text_fault};

use markdown_tables::{Rows, RowsError};
use std::alloc::Allocator;

/// `Rows::read` of `markdown_tables`: a line that is no row is an error.
pub fn read_rows<A: Allocator + Clone>(alloc: A, text: &str) -> Result<Rows<A>, RowsError>
    ensures rows { IfOk result (λ read. (name : List ℕ) → texts_of read name ≡ text_in (rows text.now) name) }
    ensures faultless { IfOk result (λ read. text_fault text.now ≡ None) }
    ensures fault { IfErr result (λ e. (e ≡ RowsError.Memory) ⊎ (text_fault text.now ≡ Some e)) }
{
    Rows::read(alloc, text)
}
