//! Which lists are loose (CommonMark 5.3).
ghost use Rattle.std.specs.Prelude.{◌≡◌, List, IfOk, reverse};
ghost use Rattle.definition_text.specs.BlockLines.{BlockLine};
ghost use Rattle.definition_block.specs.Tree.{Blocks};
ghost use Rattle.definition_block.specs.Lists.{group_items};
ghost use Rattle.block_rows.specs.Rows.{rows_of, rows_value};
ghost use Rattle.html_looseness.specs.Loose.{places_of};
ghost use Rattle.html_looseness.specs.Places.{all_places};
ghost use Rattle.html_looseness.specs.Printable.{CanBePrinted};

use block_rows::Row;
use html_looseness::Place;
use std::alloc::{AllocError, Allocator};

/// `html_looseness::places`: a list is loose by the blank lines between its blocks, and not by those after it.
pub fn places<A: Allocator + Clone>(alloc: A, rows: &[Row]) -> Result<Vec<Place, A>, AllocError>
    ensures rows { IfOk result (λ places. (ls : List BlockLine) → reverse places.items ≡ places_of (rows_value rows.now ls).rows) }
    ensures lists { IfOk result (λ places. (ls : List BlockLine) (bs : Blocks) → (rows_value rows.now ls).rows ≡ rows_of bs → CanBePrinted bs →
        reverse places.items ≡ all_places (group_items bs)) }
{
    html_looseness::places(alloc, rows)
}
