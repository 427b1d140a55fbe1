//! Why the rows of a text can't be read.
use std::alloc::AllocError;
use thiserror::Error;

/// Why the rows of a text can't be read. Lines are counted from 1, including blank ones.
#[derive(Clone, Copy, Debug, PartialEq, Eq, Drop, Error)]
pub enum RowsError {
    /// This line is no row.
    #[error("references line {0}")]
    Syntax(usize),
    /// The name of this line is already in an earlier line.
    #[error("references line {0}")]
    Repeated(usize),
    /// Out of memory.
    #[error("out of memory")]
    Memory,
}

/// Out of memory.
impl From<AllocError> for RowsError {
    ghost use Rattle.std.specs.Prelude.{◌≡◌};
    ghost use Rattle.markdown_tables.specs.declared.rows_error.RowsError.TheVariants.{Memory};

    ghost from_gives = { λ _ error. error ≡ Memory };

    fn from(_error: AllocError) -> RowsError {
        RowsError::Memory
    }
}
