//! The contents of a document's definitions (CommonMark 4.7).
ghost use Rattle.std.specs.Prelude.{◌≡◌, ◌≤◌, IfOk, length};
ghost use Rattle.definition_block.specs.Blocks.{Blocks};
ghost use Rattle.block_rows.specs.Rows.{rows_size, rows_of, rows_value};
ghost use Rattle.text_pieces.specs.Pieces.{piece_lines};
ghost use Rattle.definition_block.specs.Definitions.{document_definitions};
ghost use Rattle.block_targets.specs.Read.{HasContents};

use block_rows::Row;
use block_targets::DefinitionContents;
use std::alloc::{AllocError, Allocator};
use text_pieces::Piece;

/// `block_targets::definition_contents`: labels are found in all of a document, in texts without the prefixes of
/// containers and with the columns that these leave of a tab.
pub fn definition_contents<A: Allocator + Clone>(
    alloc: A,
    rows: &[Row],
    pieces: &[Piece<'_>],
) -> Result<DefinitionContents<A>, AllocError>
    requires enough { rows_size rows.now ≤ length pieces.now }
    ensures { (bs : Blocks) → (rows_value rows.now (piece_lines pieces.now)).rows ≡ rows_of bs →
        IfOk result (λ contents. HasContents contents (document_definitions bs)) }
{
    block_targets::definition_contents(alloc, rows, pieces)
}
