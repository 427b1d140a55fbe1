//! Files, and whether their pages are safe.
use crate::outcome::Outcome;
use html_unsafe_place::{UnsafePlace, first_unsafe};
use markdown_input::{Fault, text};

/// Checks files, and prints a line for each whose page isn't safe. A file that can't be read is
/// named on standard error, and the others are checked all the same.
pub(crate) fn check_files(rt: &HostRuntime, names: &[&str]) -> Result<Outcome, Fault> {
    let mut outcome = Outcome::Safe;
    for name in names {
        match place_in(rt, name) {
            Ok(None) => {}
            Ok(Some(place)) => {
                print_place(rt, name, place)?;
                outcome = outcome.and(Outcome::Unsafe);
            }
            Err(fault) => {
                let _ = eprintln!(rt; "markdown-safe: {name}: {}", fault.words());
                outcome = Outcome::Fault;
            }
        }
    }
    Ok(outcome)
}

/// Prints where a page isn't safe, after the name of its file.
fn print_place(rt: &HostRuntime, name: &str, place: UnsafePlace) -> Result<(), Fault> {
    let UnsafePlace { line, column, what } = place;
    println!(rt; "{name}:{line}:{column}: {}", what.words()).map_err(|error| Fault::writing(&error))
}

/// Where the page of a file, or of standard input, isn't safe.
fn place_in(rt: &HostRuntime, name: &str) -> Result<Option<UnsafePlace>, Fault> {
    let page = text(rt, name)?;
    Ok(first_unsafe(rt.alloc(), &page)?)
}
