//! The rows of a references file.
ghost use Rattle.std.specs.Prelude.{◌≡◌, ℕ, List, IfOk, IfErr, IfSome, None};
ghost use Rattle.markdown_tables.specs.Rows.{names_of};
ghost use Rattle.markdown_tables.specs.RowsFaults.{text_fault};
ghost use Rattle.markdown_devices.specs.Statuses.{references_fault, status_of, MayComeOfRows};
ghost use Rattle.markdown_devices.specs.Tables.{file_names};

use crate::fault::Fault;
use crate::run_error::RunError;
use markdown_tables::Rows;
use std::alloc::Global;
use std::fs::File;
use std::io::{self, ErrorKind, Read};
use std::rt::Files;

/// Reads the rows of a references file.
pub fn file_rows(rt: &(impl Files + AllocGlobal), path: &str) -> Result<Rows, Fault>
    ensures rows { IfOk result (λ rows. (file : List ℕ) × (text_fault file ≡ None) × ((name : List ℕ) → names_of rows name ≡ file_names file name)) }
    ensures status { IfErr result (λ fault. status_of fault ≡ 1) }
{
    match File::open(rt, path) {
        Ok(file) => read_rows(rt.alloc(), file),
        Err(error) => Err(references_fault(error.kind())),
    }
}

/// Reads the rows of a reader's text.
fn read_rows<R: Read + Drop>(alloc: Global, reader: R) -> Result<Rows, Fault>
    ensures rows { IfOk result (λ rows. (file : List ℕ) × IfSome (R.remaining reader) (λ told. file ≡ told)
        × (text_fault file ≡ None) × ((name : List ℕ) → names_of rows name ≡ file_names file name)) }
    ensures fault { IfErr result (λ fault. IfSome (R.remaining reader) (MayComeOfRows fault)) }
    ensures status { IfErr result (λ fault. status_of fault ≡ 1) }
{
    match io::read_to_string(alloc, reader) {
        Ok(text) => Rows::read(alloc, &text).map_err(Fault::Rows),
        Err(error) => Err(references_fault(error.kind())),
    }
}

/// The fault if the references file can't be read.
fn references_fault(kind: ErrorKind) -> Fault
    ensures { result ≡ references_fault kind }
{
    match kind {
        ErrorKind::OutOfMemory => Fault::Run(RunError::Memory),
        _ => Fault::References,
    }
}
