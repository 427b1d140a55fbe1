//! Why a program can't do what it is asked for.
use std::alloc::{AllocError, AllocFailed};
use std::io::{Error, ErrorKind};

/// Why a program can't do what it is asked for.
#[derive(Clone, Copy, Debug)]
pub enum Fault {
    /// The command line is wrong.
    Words,
    /// The text can't be read.
    Read,
    /// The text isn't UTF-8.
    Utf8,
    /// The text is too large.
    Size,
    /// The output can't be written.
    Write,
    /// The file may not be written.
    ReadOnly,
    /// The file has another name.
    Links,
    /// The folder of the file takes no new file.
    Folder,
    /// The owner or the group of the file can't be kept.
    Owner,
    /// The file isn't as it was read.
    Changed,
    /// Memory ran out.
    Memory,
}

impl Fault {
    /// This fault, or that of memory if memory was refused.
    pub fn unless_memory(self, error: &Error) -> Fault {
        match error.kind() {
            ErrorKind::OutOfMemory => Fault::Memory,
            _ => self,
        }
    }

    /// The fault if a text can't be read.
    pub fn reading(error: &Error) -> Fault {
        match error.kind() {
            ErrorKind::InvalidData => Fault::Utf8,
            _ => Fault::Read.unless_memory(error),
        }
    }

    /// The fault if output can't be written.
    pub fn writing(error: &Error) -> Fault {
        Fault::Write.unless_memory(error)
    }

    /// What is printed of it.
    pub fn words(self) -> &'static str {
        match self {
            Fault::Words => "wrong command line; --help lists the words",
            Fault::Read => "cannot read",
            Fault::Utf8 => "input is not UTF-8",
            Fault::Size => "input is too large",
            Fault::Write => "cannot write",
            Fault::ReadOnly => "cannot write: the file is read-only",
            Fault::Links => "cannot write: the file has more than one hard link",
            Fault::Folder => "cannot write: the folder takes no new file",
            Fault::Owner => "cannot write: the owner or the group would change",
            Fault::Changed => "cannot write: the file changed meanwhile",
            Fault::Memory => "out of memory",
        }
    }
}

impl From<AllocError> for Fault {
    fn from(_error: AllocError) -> Fault {
        Fault::Memory
    }
}

impl<T: Drop> From<AllocFailed<T>> for Fault {
    fn from(_error: AllocFailed<T>) -> Fault {
        Fault::Memory
    }
}
