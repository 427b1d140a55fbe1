//! Files, and whether their pages are listed pages: safe pages that may have tags of the list, too.
use crate::outcome::Outcome;
use html_listed_page::is_listed_page;
use html_safe_page::TagTable;
use markdown_input::{Fault, text};

/// Checks files, and prints a line for each whose page isn't a listed page. A file that can't be
/// read is named on standard error, and the others are checked all the same.
pub(crate) fn check_listed_files(rt: &HostRuntime, names: &[&str]) -> Result<Outcome, Fault> {
    let mut outcome = Outcome::Safe;
    for name in names {
        match is_listed(rt, name) {
            Ok(true) => {}
            Ok(false) => {
                print_unlisted(rt, name)?;
                outcome = outcome.and(Outcome::Unsafe);
            }
            Err(fault) => {
                let _ = eprintln!(rt; "markdown-safe: {name}: {}", fault.words());
                outcome = Outcome::Fault;
            }
        }
    }
    Ok(outcome)
}

/// Prints that a page isn't a listed page, after the name of its file.
fn print_unlisted(rt: &HostRuntime, name: &str) -> Result<(), Fault> {
    println!(rt; "{name}: a page that isn't safe, even with tags of the list").map_err(
        |error| Fault::writing(&error),
    )
}

/// Whether the page of a file, or of standard input, is a listed page.
fn is_listed(rt: &HostRuntime, name: &str) -> Result<bool, Fault> {
    let page = text(rt, name)?;
    Ok(is_listed_page(rt.alloc(), TagTable::Basic, &page)?)
}
