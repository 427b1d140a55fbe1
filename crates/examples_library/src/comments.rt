//! Comments, one a line, as articles.
use crate::article::article;
use markdown::{RunError, fits};

/// Prints each line of standard input as an article.
pub(crate) fn print_comments(rt: &HostRuntime) -> Result<(), RunError> {
    for line in rt.lines(rt.alloc()) {
        let comment = line.map_err(RunError::Read)?;
        if !fits(&comment) {
            eprintln!(rt; "the comment is too long").map_err(RunError::Write)?;
            continue;
        }
        match article(rt.alloc(), &comment) {
            Ok(page) => print!(rt; "{page}").map_err(RunError::Write)?,
            Err(message) => eprintln!(rt; "{message}").map_err(RunError::Write)?,
        }
    }
    Ok(())
}
