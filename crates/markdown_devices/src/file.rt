//! The file that is read in place of standard input.
ghost use Rattle.std.specs.Prelude.{◌≡◌, IfOk, IfErr};
ghost use Rattle.std.specs.IoError.{error_kind};
ghost use Rattle.markdown_devices.specs.Endings.{IsUnread};
ghost use Rattle.markdown_devices.specs.Statuses.{status_of, unopened_fault};

use crate::fault::Fault;
use crate::run_error::RunError;
use crate::watched::Watched;
use std::fs::File;
use std::io::{Error, ErrorKind};
use std::rt::Files;

/// Opens a file to read.
pub fn open_file<S: Files>(rt: &S, path: &str) -> Result<Watched<S::File>, Fault>
    ensures unread { IfOk result IsUnread }
    ensures status { IfErr result (λ fault. status_of fault ≡ 1) }
{
    match File::open(rt, path) {
        Ok(file) => Ok(Watched::new(file)),
        Err(error) => Err(unopened_fault(error)),
    }
}

/// The fault if the file can't be opened.
fn unopened_fault(error: Error) -> Fault
    ensures { result ≡ unopened_fault (error_kind error) error }
{
    match error.kind() {
        ErrorKind::OutOfMemory => Fault::Run(RunError::Memory),
        _ => Fault::Run(RunError::Read(error)),
    }
}
