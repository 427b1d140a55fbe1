//! Why a list of events is refused.
use event_faults::EventFault;
use std::alloc::AllocError;
use thiserror::Error;

/// Why a list of events is refused.
#[derive(Clone, Copy, Debug, PartialEq, Eq, Drop, Error)]
pub enum CompileError {
    /// Out of memory.
    #[error("out of memory")]
    Memory,
    /// The list isn't in the grammar. This is its first fault.
    #[error("fault in events")]
    Events(EventFault),
}

/// Out of memory.
impl From<AllocError> for CompileError {
    ghost use Rattle.std.specs.Prelude.{◌≡◌};
    ghost use Rattle.event_check.specs.declared.error.CompileError.TheVariants.{Memory};

    ghost from_gives = { λ _ error. error ≡ Memory };

    fn from(_error: AllocError) -> CompileError {
        CompileError::Memory
    }
}
