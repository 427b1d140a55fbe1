//! Why words ask for no findings.
use std::alloc::{AllocError, AllocFailed};

/// Why words ask for no findings.
#[derive(Drop)]
pub enum Refusal {
    /// They ask for this text: the help or the version.
    Answer(&'static str),
    /// They are wrong.
    Words,
    /// This word is no rule.
    Rule(String),
    /// Memory ran out.
    Memory,
}

impl From<AllocError> for Refusal {
    fn from(_error: AllocError) -> Refusal {
        Refusal::Memory
    }
}

impl<T: Drop> From<AllocFailed<T>> for Refusal {
    fn from(_error: AllocFailed<T>) -> Refusal {
        Refusal::Memory
    }
}
