//! Prints the events of a text, one a line: `enter NAME line:column(index) vs`, or the same with `exit`; or its
//! headings: `LINE: ## TEXT (#SLUG)`.
#![tactic(auto)]

mod command;
mod lines;

use command::Command;
use engine_events::Event;
use lines::{write_events, write_headings};
use markdown_input::{Fault, text, words};
use markdown_outline::{Outline, outline};
use markdown_tables::Builtin;
use parse_events::{SIZE_MAX, parse};
use std::alloc::Global;
use std::io::{self, BufWriter};
use std::process::ExitCode;

fn main(rt: HostRuntime) -> ExitCode {
    match run(&rt) {
        Ok(status) => status,
        Err(fault) => {
            let _ = eprintln!(rt; "markdown-events: {}", fault.words());
            ExitCode::from(status(fault))
        }
    }
}

/// The exit status: 2 for a wrong command line, 1 for any other fault.
fn status(fault: Fault) -> u8 {
    match fault {
        Fault::Words => 2,
        _ => 1,
    }
}

/// Runs the command line. A file whose events or headings can't be printed is named.
fn run(rt: &HostRuntime) -> Result<ExitCode, Fault> {
    let words = words(rt)?;
    let command = Command::read(&words)?;
    if let Some(answer) = command.answer {
        return print_answer(rt, answer).map_err(|error| Fault::writing(&error));
    }
    match print_file(rt, command) {
        Ok(()) => Ok(ExitCode::SUCCESS),
        Err(fault) => {
            let name = command.name();
            let _ = eprintln!(rt; "markdown-events: {name}: {}", fault.words());
            Ok(ExitCode::from(status(fault)))
        }
    }
}

/// Prints the help or the version to standard output.
fn print_answer(rt: &HostRuntime, answer: &str) -> io::Result<ExitCode> {
    print!(rt; "{answer}")?;
    Ok(ExitCode::SUCCESS)
}

/// Prints the events of a file, or its headings.
fn print_file(rt: &HostRuntime, command: Command<'_>) -> Result<(), Fault> {
    let text = text(rt, command.name())?;
    if text.len() > SIZE_MAX {
        return Err(Fault::Size);
    }
    let options = command.flags.options();
    let Ok((events, _)) = parse(rt.alloc(), &text, &options, &Builtin) else {
        return Err(Fault::Memory);
    };
    if command.prints_outline {
        let found = outline(rt.alloc(), &events, text.as_bytes(), &Builtin)?;
        return print_headings(rt, &found).map_err(|error| Fault::writing(&error));
    }
    print_events(rt, &events).map_err(|error| Fault::writing(&error))
}

/// Prints headings to standard output.
fn print_headings(rt: &HostRuntime, found: &Outline<Global>) -> io::Result<()> {
    let mut writer = BufWriter::new(rt.alloc(), rt.stdout())?;
    write_headings(&mut writer, found)
}

/// Prints events to standard output.
fn print_events(rt: &HostRuntime, events: &[Event]) -> io::Result<()> {
    let mut writer = BufWriter::new(rt.alloc(), rt.stdout())?;
    write_events(&mut writer, events)
}
