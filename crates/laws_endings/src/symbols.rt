//! Codes stand for bytes, columns of tabs and line endings, each for one.
ghost use Rattle.laws_endings.specs.Symbols.{CodesLaw, ApartLaw};

/// Each code of a content of a text of bytes is that of a byte that ends no line, of a column that is left of a tab, or of a line ending.
#[tactic(auto, using(crate::proofs::CodeSymbols::codes_law))]
pub fn codes_law()
    ensures { CodesLaw }
{}

/// No two of these have the same code.
#[tactic(auto, using(crate::proofs::CodeSymbols::apart_law))]
pub fn apart_law()
    ensures { ApartLaw }
{}
