//! HTML of any origin, and what is kept of it.
use crate::outcome::Outcome;
use html_sanitizer::sanitized_html;
use markdown_compile_options::CompileOptions;
use markdown_input::{Fault, text};
use markdown_tables::Builtin;

/// Prints what is kept of the HTML of files, one after another. A file whose page can't be printed is named on
/// standard error.
pub(crate) fn clean_files(rt: &HostRuntime, names: &[&str]) -> Outcome {
    let mut outcome = Outcome::Safe;
    for name in names {
        if let Err(fault) = print_page(rt, name) {
            let _ = eprintln!(rt; "markdown-safe: {name}: {}", fault.words());
            outcome = Outcome::Fault;
        }
    }
    outcome
}

/// Prints what is kept of the HTML of a file, or of standard input.
fn print_page(rt: &HostRuntime, name: &str) -> Result<(), Fault> {
    let html = text(rt, name)?;
    let page = sanitized_html(rt.alloc(), &html, &CompileOptions::default(), &Builtin)?;
    print!(rt; "{page}").map_err(|error| Fault::writing(&error))
}
