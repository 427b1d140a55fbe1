//! Why a run wrote no whole page.
ghost use Rattle.std.specs.Prelude.{◌≡◌};

use markdown_options::Message;
use std::alloc::AllocError;
use std::{error, fmt, io};

/// Why no whole page was written. No read or write is repeated, not even an interrupted one.
#[derive(Debug, Drop)]
pub enum RunError {
    /// More than `usize::MAX / 8` bytes were read.
    Size,
    /// The text was read to its end, and isn't UTF-8.
    Utf8,
    /// Out of memory.
    Memory,
    /// The reader returned this error, or the file to read can't be opened.
    Read(io::Error),
    /// The writer returned this error. A beginning of the page was written.
    Write(io::Error),
    /// The writer took no byte. A beginning of the page was written.
    Stopped,
}

impl RunError {
    ghost use Rattle.markdown_devices.specs.Complaints.{run_words};

    /// Returns the message of the error, as the program prints it.
    pub fn words(&self) -> &'static str
        ensures { result.now ≡ run_words self.now }
    {
        match self {
            RunError::Size => "input is too large",
            RunError::Utf8 => "input is not UTF-8",
            RunError::Memory => "out of memory",
            RunError::Read(_) => "cannot read",
            RunError::Write(_) | RunError::Stopped => "cannot write",
        }
    }
}

impl fmt::Display for RunError {
    fn fmt<W: fmt::Write>(&self, f: &mut fmt::Formatter<W>) -> fmt::Result {
        f.write_str(self.words())
    }
}

impl error::Error for RunError {}

/// Out of memory.
impl From<AllocError> for RunError {
    ghost use Rattle.markdown_devices.specs.declared.run_error.RunError.TheVariants.{Memory};

    ghost from_gives = { λ _ e. e ≡ Memory };

    fn from(_error: AllocError) -> RunError {
        RunError::Memory
    }
}

/// A conversion fails only with `out of memory`.
impl From<Message> for RunError {
    ghost use Rattle.markdown_devices.specs.declared.run_error.RunError.TheVariants.{Memory};

    ghost from_gives = { λ _ e. e ≡ Memory };

    fn from(_message: Message) -> RunError {
        RunError::Memory
    }
}
