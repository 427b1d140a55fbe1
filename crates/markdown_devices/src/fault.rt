//! Why the program ends with a status other than 0.
ghost use Rattle.std.specs.Prelude.{◌≡◌};
ghost use Rattle.markdown_devices.specs.Complaints.{fault_line, fault_words, rows_line, rows_words};
ghost use Rattle.markdown_devices.specs.Statuses.{status_of};

use crate::run_error::RunError;
use markdown_tables::RowsError;

/// Why the program ends with a status other than 0.
#[derive(Debug, Drop)]
pub enum Fault {
    /// The command line is wrong.
    Words,
    /// The references file can't be read.
    References,
    /// A line of the references file is wrong, or memory ran out.
    Rows(RowsError),
    /// The page can't be made or written.
    Run(RunError),
}

impl Fault {
    /// The exit status: 2 for a wrong command line, 1 for any other fault.
    pub fn status(&self) -> u8
        ensures { result ≡ status_of self.now }
    {
        match self {
            Fault::Words => 2,
            _ => 1,
        }
    }

    /// The message of the fault, without the number of a line.
    pub fn words(&self) -> &'static str
        ensures { result.now ≡ fault_words self.now }
    {
        match self {
            Fault::Words => "wrong command line",
            Fault::References => "cannot read references",
            Fault::Rows(error) => rows_words(error),
            Fault::Run(error) => error.words(),
        }
    }

    /// The wrong line of the references file, from 1.
    pub fn line(&self) -> Option<usize>
        ensures { result ≡ fault_line self.now }
    {
        match self {
            Fault::Rows(error) => rows_line(error),
            _ => None,
        }
    }
}

/// The message of an error in rows, without the number of a line.
fn rows_words(error: &RowsError) -> &'static str
    ensures { result.now ≡ rows_words error.now }
{
    match error {
        RowsError::Syntax(_) | RowsError::Repeated(_) => "references line ",
        RowsError::Memory => "out of memory",
    }
}

/// The wrong line of these rows, from 1.
fn rows_line(error: &RowsError) -> Option<usize>
    ensures { result ≡ rows_line error.now }
{
    match error {
        RowsError::Syntax(line) | RowsError::Repeated(line) => Some(*line),
        RowsError::Memory => None,
    }
}
