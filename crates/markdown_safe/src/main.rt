//! Tells whether pages are safe: one line for each that isn't, `FILE:LINE:COLUMN: WHAT`; or sanitizes HTML.
#![tactic(auto)]

mod check;
mod clean;
mod command;
mod listed;
mod outcome;

use check::check_files;
use clean::clean_files;
use command::Command;
use listed::check_listed_files;
use markdown_input::{Fault, words};
use outcome::Outcome;
use std::io;
use std::process::ExitCode;

fn main(rt: HostRuntime) -> ExitCode {
    let outcome = run(&rt).unwrap_or_else(|fault| {
        let _ = eprintln!(rt; "markdown-safe: {}", fault.words());
        Outcome::Fault
    });
    ExitCode::from(outcome.status())
}

/// Runs the command line.
fn run(rt: &HostRuntime) -> Result<Outcome, Fault> {
    let words = words(rt)?;
    let command = Command::read(rt.alloc(), &words)?;
    if let Some(answer) = command.answer {
        return print_answer(rt, answer).map_err(|error| Fault::writing(&error));
    }
    if command.cleans {
        return Ok(clean_files(rt, &command.files));
    }
    if command.listed {
        return check_listed_files(rt, &command.files);
    }
    check_files(rt, &command.files)
}

/// Prints the help or the version to standard output.
fn print_answer(rt: &HostRuntime, answer: &str) -> io::Result<Outcome> {
    print!(rt; "{answer}")?;
    Ok(Outcome::Safe)
}
