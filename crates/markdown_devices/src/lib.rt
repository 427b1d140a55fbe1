//! The devices of a run: what is read, written and printed of faults, whatever the page.
#![tactic(auto)]

pub mod complaint;
pub mod fault;
pub mod file;
pub mod read;
pub mod references;
pub mod run_error;
pub mod watched;
pub mod words;
pub mod write;

pub use complaint::end;
pub use fault::Fault;
pub use file::open_file;
pub use read::{SIZE_MAX, read_all};
pub use references::file_rows;
pub use run_error::RunError;
pub use watched::Watched;
pub use write::{answer, flush, write_all};
