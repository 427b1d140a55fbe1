//! Lists with their texts and options of printing, and the page of each.
use crate::lists::{bytes_of, events_of};
use crate::names::Names;
use crate::options::{are_safe, options_of, table_of};
use compile_html::compile;
use event_check::CompileError;
use html_safe_page::is_safe_page_by;
use markdown_tables::Builtin;
use std::alloc::{AllocError, Global};
use std::io::{self, ErrorKind};

/// Prints the page of a line `LETTERS|TEXT|LIST`, or its fault.
pub fn print_page_of(rt: &(impl AllocGlobal + Print), names: &Names, line: &str) -> io::Result<()> {
    let Some((letters, rest)) = line.split_once('|') else {
        return Err(ErrorKind::InvalidData.into());
    };
    let (text, list) = rest.split_once('|').ok_or(ErrorKind::InvalidData)?;
    let alloc = rt.alloc();
    let bytes = bytes_of(alloc, text)?.ok_or(ErrorKind::InvalidData)?;
    let events = events_of(alloc, names, list)?.ok_or(ErrorKind::InvalidData)?;
    let options = options_of(alloc, letters);
    match compile(alloc, &events, &bytes, &options, &Builtin) {
        Ok(page) => print_page(rt, letters, &page),
        Err(CompileError::Memory) => Err(ErrorKind::OutOfMemory.into()),
        Err(CompileError::Events(fault)) => {
            println!(rt; "fault {:?} {}", fault.kind, fault.index)?;
            Ok(())
        }
    }
}

/// Prints a page as one line. One that should be safe and isn't has a mark.
fn print_page(rt: &(impl AllocGlobal + Print), letters: &str, page: &str) -> io::Result<()> {
    let line = one_line(rt.alloc(), page)?;
    let mark = if are_safe(letters) && !is_safe_page_by(rt.alloc(), table_of(letters), page)? {
        "UNSAFE "
    } else {
        ""
    };
    println!(rt; "{mark}{line}")?;
    Ok(())
}

/// A page with `\` and two hexadecimal digits for each backslash, LF and CR.
fn one_line(alloc: Global, page: &str) -> Result<String, AllocError> {
    let mut line = String::new(alloc);
    for c in page.chars() {
        match c {
            '\\' => line.push_str("\\5C")?,
            '\n' => line.push_str("\\0A")?,
            '\r' => line.push_str("\\0D")?,
            _ => line.push(c)?,
        }
    }
    Ok(line)
}
