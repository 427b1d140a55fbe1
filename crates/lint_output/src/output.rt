//! Findings, printed one a line.
use crate::json::json_of;
use lint_document::{Columns, Finding, Place, Places};
use std::alloc::Global;
use std::io::{self, Error, ErrorKind, Write};

/// How findings are printed.
#[derive(Clone, Copy)]
pub struct Form {
    /// What columns count.
    pub columns: Columns,
    /// Whether each is an object of JSON.
    pub json: bool,
}

/// Writes the findings of a file with this text, one a line, in their order.
pub fn write_findings<W: Write>(
    alloc: Global,
    writer: &mut W,
    form: Form,
    file: &str,
    text: &str,
    findings: &[Finding],
) -> io::Result<()> {
    let mut places = Places::new(text.as_bytes(), form.columns);
    for finding in findings {
        let start = places.at(finding.span.start);
        if form.json {
            // The finding's bytes are read again for the next one.
            let mut places = places;
            let end = places.at(finding.span.end);
            let Ok(object) = json_of(alloc, file, finding, start, end) else {
                return Err(Error::from(ErrorKind::OutOfMemory));
            };
            writeln!(writer, "{object}")?;
        } else {
            write_line(writer, file, finding, start)?;
        }
    }
    Ok(())
}

/// Writes a finding as `FILE:LINE:COLUMN: WHAT (RULE)`.
fn write_line<W: Write>(
    writer: &mut W,
    file: &str,
    finding: &Finding,
    start: Place,
) -> io::Result<()> {
    let Place { line, column } = start;
    let what = finding.what.as_str();
    let rule = finding.rule.name();
    writeln!(writer, "{file}:{line}:{column}: {what} ({rule})")
}
