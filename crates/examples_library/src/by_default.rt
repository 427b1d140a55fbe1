//! The two calls that convert a text, compared.
ghost use Rattle.std.specs.Prelude.{◌≡◌, true, IfOk};

use markdown::{Message, Options, RunError, fits, to_html, to_html_with_options};
use std::alloc::Global;

/// Prints for each line of standard input whether both calls have the same page for it.
pub(crate) fn print_compared(rt: &HostRuntime) -> Result<(), RunError> {
    for line in rt.lines(rt.alloc()) {
        let text = line.map_err(RunError::Read)?;
        match is_same_by_default(rt.alloc(), &text) {
            Ok(same) => println!(rt; "{same}").map_err(RunError::Write)?,
            Err(message) => eprintln!(rt; "{message}").map_err(RunError::Write)?,
        }
    }
    Ok(())
}

/// Whether the two calls print a text the same by the default options. They always do: that is
/// proved of their clauses alone.
pub fn is_same_by_default(alloc: Global, text: &str) -> Result<bool, Message>
    ensures { IfOk result (λ same. same ≡ true) }
{
    if !fits(text) {
        return Ok(true);
    }
    let page = to_html(alloc, text)?;
    let other = to_html_with_options(alloc, text, &Options::default())?;
    Ok(page.as_str() == other.as_str())
}
