//! The words of the process.
ghost use Rattle.std.specs.Prelude.{◌≡◌, drop};
ghost use Rattle.markdown_devices.specs.Statuses.{unread_fault};

use crate::fault::Fault;
use crate::run_error::RunError;
use std::io::ErrorKind;

/// The words after the program's name.
pub fn after_name(words: &[String]) -> &[String]
    ensures { result.now ≡ drop 1 words.now }
{
    if words.is_empty() { words } else { &words[1..] }
}

/// The fault if the system gives no words.
pub fn unread_fault(kind: ErrorKind) -> Fault
    ensures { result ≡ unread_fault kind }
{
    match kind {
        ErrorKind::OutOfMemory => Fault::Run(RunError::Memory),
        _ => Fault::Words,
    }
}
