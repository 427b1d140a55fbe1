//! Rows of inline structure are laid in their content.
ghost use Rattle.parse_written.specs.RowLaws.{BreakBytesLaw, CallBytesLaw, FirstRowLaw, FrontBytesLaw, InlineBytesLaw, LineBytesLaw, PartsLaw, RawBytesLaw, ReferenceBytesLaw};
ghost use Rattle.parse_written.specs.RowLaws.{RowsLaw, RowsOfSteps, SequenceLaw, TextBytesLaw};
ghost use Rattle.parse_written.specs.RefusedRows.{RefusedRows};

/// The rows of inline structure are those of its steps from left to right.
#[tactic(auto, using(crate::proofs::Steps::rows_of_steps))]
pub fn steps_law()
    ensures { RowsOfSteps }
{}

/// Rows that stand for the inline structure of a content are laid in it, from its first code to its
/// end: each row says what is written at its place.
#[tactic(auto)]
pub fn rows_law()
    ensures { RowsLaw }
{}

/// Of rows that stand for steps that are laid, the first is laid by its own steps: a link leads where
/// its step does. The other rows stand for the steps that are left.
#[tactic(auto, using(crate::proofs::LaidRows::first_row_law))]
pub fn first_row_law()
    ensures { FirstRowLaw }
{}

/// Rows of a leaf have the form of its construct where they are laid: escapes are so many backslashes
/// with a byte each, a line ending has all spaces and tabs around it, spaces by themselves nothing.
#[tactic(auto, using(crate::proofs::Parts::parts_law))]
pub fn parts_law()
    ensures { PartsLaw }
{}

/// Codes that end no line are as many bytes.
#[tactic(auto)]
pub fn inline_bytes_law()
    ensures { InlineBytesLaw }
{}

/// Bytes whose codes begin with those of a text begin with it, also where lines end in it.
pub fn front_bytes_law()
    ensures { FrontBytesLaw }
{}

/// The codes of a text at a place are its bytes, also where lines end in it.
pub fn text_bytes_law()
    ensures { TextBytesLaw }
{}

/// Code and math end in bytes where they end in codes: at the next run of as many.
pub fn raw_bytes_law()
    ensures { RawBytesLaw }
{}

/// The sequence that a span starts with has one byte or two, by the span; one of tildes is a whole run.
pub fn sequence_law()
    ensures { SequenceLaw }
{}

/// The bytes of a call are its label between `[^` and `]`.
pub fn call_bytes_law()
    ensures { CallBytesLaw }
{}

/// A reference ends at the first `;` of the bytes.
pub fn reference_bytes_law()
    ensures { ReferenceBytesLaw }
{}

/// A line ending has all spaces and tabs of the bytes around it.
pub fn line_bytes_law()
    ensures { LineBytesLaw }
{}

/// A hard break by spaces has all spaces and tabs of the bytes that come next.
pub fn break_bytes_law()
    ensures { BreakBytesLaw }
{}

/// Rows that aren't laid: a byte without a row, a row of another text, a link without a bracket, a
/// span that doesn't end, and an end where nothing is open.
#[tactic(auto, using(crate::proofs::RefusedRows::refused_rows))]
pub fn refused_rows()
    ensures { RefusedRows }
{}
