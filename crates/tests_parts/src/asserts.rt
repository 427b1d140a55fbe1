//! How a table fails.
use std::process::Abort;

/// Fails, and shows what is wanted, if it isn't so, or if that can't be told.
pub(crate) fn assert_so<E: Drop>(rt: &impl Abort, wanted: &str, so: Result<bool, E>) {
    match so {
        Ok(true) => {}
        Ok(false) => panic!(rt; "not so: {wanted}"),
        Err(_) => panic!(rt; "{wanted}: an error"),
    }
}
