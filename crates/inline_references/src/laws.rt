//! Laws of references, decoded texts and rows of names.
ghost use Rattle.inline_references.specs.Grammar.{WrittenIsRead, ReadIsWritten, DecodesDecoded, DecodesAlone};
ghost use Rattle.inline_references.specs.Laws.{PlainLaw, RowsLaw, BuiltinLaw};

/// A text without `&` is unchanged, by any tables.
#[tactic(auto, using(crate::proofs::Decoding::plain_law))]
pub fn plain_law()
    ensures { PlainLaw }
{}

/// Each name in the rows of a text has 1 to 31 letters and digits. Its text is UTF-8, and isn't
/// empty.
pub fn rows_law()
    ensures { RowsLaw }
{}

/// Each built-in name has 1 to 31 letters and digits. Its text is UTF-8, and isn't empty.
pub fn builtin_law()
    ensures { BuiltinLaw }
{}

/// A written reference is read as that reference.
pub fn written_law()
    ensures { WrittenIsRead }
{}

/// Bytes that are read as a reference are that reference, written.
pub fn read_law()
    ensures { ReadIsWritten }
{}

/// A text is decoded to the texts of its references and its other bytes, in order.
pub fn decodes_law()
    ensures { DecodesDecoded }
{}

/// A text is decoded to one text only.
pub fn alone_law()
    ensures { DecodesAlone }
{}
