//! Formats Markdown. The page of a text stays the same.
#![tactic(auto)]

mod changes;
mod diff;
mod files;
mod outcome;

use files::format_all;
use format_settings::{Command, Options, Refusal, config};
use markdown_input::{Fault, words};
use outcome::Outcome;
use std::process::ExitCode;

fn main(rt: HostRuntime) -> ExitCode {
    let outcome = run(&rt).unwrap_or_else(|fault| {
        let _ = eprintln!(rt; "markdown-fmt: {}", fault.words());
        Outcome::Fault
    });
    ExitCode::from(outcome.status())
}

/// Runs the command line. Its words are read twice, since they add to the file of settings that they name.
fn run(rt: &HostRuntime) -> Result<Outcome, Fault> {
    let words = words(rt)?;
    let command = match Command::read(rt.alloc(), &words, Options::new(rt.alloc())) {
        Ok(command) => command,
        Err(refusal) => return print_refusal(rt, refusal),
    };
    if let Some(answer) = command.answer {
        return print_answer(rt, answer);
    }
    let Some(options) = config::options(rt, command.config)? else {
        return Ok(Outcome::Fault);
    };
    match Command::read(rt.alloc(), &words, options) {
        Ok(command) => Ok(format_all(rt, &command)),
        Err(refusal) => print_refusal(rt, refusal),
    }
}

/// Prints why the words are wrong.
fn print_refusal(rt: &HostRuntime, refusal: Refusal<'_>) -> Result<Outcome, Fault> {
    match refusal {
        Refusal::Rule(word) => {
            let _ = eprintln!(rt; "markdown-fmt: no rule {word:?}; --help lists the rules");
            Ok(Outcome::Fault)
        }
        Refusal::Fault(fault) => Err(fault),
    }
}

/// Prints the help or the version to standard output.
fn print_answer(rt: &HostRuntime, answer: &str) -> Result<Outcome, Fault> {
    match print!(rt; "{answer}") {
        Ok(()) => Ok(Outcome::Clean),
        Err(error) => Err(Fault::writing(&error)),
    }
}
