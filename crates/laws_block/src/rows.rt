//! The rows of a block tree are nested as its containers are.
ghost use Rattle.laws_block.specs.Nested.{RowsAreNested, RowsOfTextAreNested};

/// In the rows of blocks no container ends that isn't open, and at their end none is open.
#[tactic(auto, using(crate::proofs::Nested::rows_are_nested))]
pub fn rows_law()
    ensures { RowsAreNested }
{}

/// The same in the rows of a text.
#[tactic(auto, using(crate::proofs::Nested::rows_of_text_are_nested))]
pub fn rows_of_text_law()
    ensures { RowsOfTextAreNested }
{}
