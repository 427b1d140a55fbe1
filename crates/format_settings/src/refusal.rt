//! Why words ask for nothing that can be done.
use markdown_input::Fault;
use std::alloc::{AllocError, AllocFailed};

/// Why words ask for nothing that can be done.
#[derive(Clone, Copy)]
pub enum Refusal<'w> {
    /// This word is no rule.
    Rule(&'w str),
    /// What else is wrong.
    Fault(Fault),
}

impl<'w> From<AllocError> for Refusal<'w> {
    fn from(_error: AllocError) -> Refusal<'w> {
        Refusal::Fault(Fault::Memory)
    }
}

impl<'w, T: Drop> From<AllocFailed<T>> for Refusal<'w> {
    fn from(_error: AllocFailed<T>) -> Refusal<'w> {
        Refusal::Fault(Fault::Memory)
    }
}
