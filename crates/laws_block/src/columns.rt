//! Only tabs make a line depend on the column at which it starts.
ghost use Rattle.laws_block.specs.NoTabs.{CodesAreBytes, SameAtAnyColumn};

/// The codes of bytes without tabs are the bytes, whatever the column of the first one.
#[tactic(auto, using(crate::proofs::NoTabs::codes_are_bytes))]
pub fn bytes_law()
    ensures { CodesAreBytes }
{}

/// Bytes without tabs are read the same at any two columns.
#[tactic(auto, using(crate::proofs::NoTabs::same_at_any_column))]
pub fn column_law()
    ensures { SameAtAnyColumn }
{}
