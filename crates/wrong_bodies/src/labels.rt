//! The labels of definitions (CommonMark 4.7).
ghost use Rattle.std.specs.Prelude.{◌∷◌, [], IfOk};
ghost use Rattle.definition_text.specs.Content.{content_codes};
ghost use Rattle.inline_labels.specs.Table.{HasLabels};

use inline_labels::LabelTable;
use std::alloc::{AllocError, Allocator};

/// Returns a table of two labels, by `LabelTable` of `inline_labels`: of equal ones the first counts.
pub fn table_of_both<A: Allocator + Clone>(
    alloc: A,
    first: &[u8],
    second: &[u8],
) -> Result<LabelTable<A>, AllocError>
    ensures { IfOk result (λ table. HasLabels table (content_codes first.now ∷ content_codes second.now ∷ [])) }
{
    let mut table = LabelTable::new(alloc)?;
    table.insert(first, 0)?;
    table.insert(second, 1)?;
    Ok(table)
}
