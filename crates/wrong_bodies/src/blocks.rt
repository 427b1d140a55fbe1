//! The blocks of a text (CommonMark 4 and 5).
ghost use Rattle.std.specs.Prelude.{◌≡◌, ◌≤◌, ◌<◌, ◌^◌, [], IfOk, length};
ghost use Rattle.definition_block.specs.Tree.{blocks};
ghost use Rattle.block_rows.specs.Rows.{rows_size, rows_of, rows_value, value_with};
ghost use Rattle.text_pieces.specs.Pieces.{piece_lines};

use block_parser::BlockRows;
use markdown_options::{Constructs, Kind};
use std::alloc::{AllocError, Allocator};

/// `block_parser::block_rows`: a line that lacks a container's prefix continues a paragraph and nothing else.
pub fn block_rows<'a, A: Allocator + Clone>(
    alloc: A,
    before: Kind,
    text: &'a str,
    on: &Constructs,
) -> Result<BlockRows<'a, A>, AllocError>
    requires fits { length text.now < 2 ^ 61 }
    ensures rows { IfOk result (λ r. rows_value r.rows.items (piece_lines r.pieces.items) ≡ value_with (rows_of (blocks on.now before text.entry.now)) []) }
    ensures enough { IfOk result (λ r. rows_size r.rows.items ≤ length r.pieces.items) }
{
    block_parser::block_rows(alloc, before, text, on)
}
