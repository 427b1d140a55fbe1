//! The cells of tables (GFM 4.10).
ghost use Rattle.laws_block.specs.GfmTable.{OneCell};

/// A line without a bar is one cell, unless it is blank.
#[tactic(auto, using(crate::proofs::GfmTable::one_cell))]
pub fn one_cell_law()
    ensures { OneCell }
{}
