//! Finds what is wrong or unwise in Markdown: one finding a line, `FILE:LINE:COLUMN: WHAT (RULE)`.
#![tactic(auto)]

mod lint;
mod mend;
mod outcome;
mod settings;

use lint::Lint;
use lint_files::KnownFragments;
use lint_settings::{Refusal, Request};
use markdown_input::{Fault, STANDARD_INPUT, words};
use outcome::Outcome;
use settings::options;
use std::process::ExitCode;

fn main(rt: HostRuntime) -> ExitCode {
    let outcome = run(&rt).unwrap_or_else(|fault| {
        let _ = eprintln!(rt; "markdown-lint: {}", fault.words());
        Outcome::Fault
    });
    ExitCode::from(outcome.status())
}

/// Runs the command line.
fn run(rt: &HostRuntime) -> Result<Outcome, Fault> {
    let words = words(rt)?;
    match Request::read(rt.alloc(), &words) {
        Ok(request) => check(rt, &request),
        Err(Refusal::Answer(answer)) => print_answer(rt, answer),
        Err(Refusal::Rule(word)) => {
            let _ = eprintln!(rt; "markdown-lint: no rule {word:?}; --help lists the rules");
            Ok(Outcome::Fault)
        }
        Err(Refusal::Words) => Err(Fault::Words),
        Err(Refusal::Memory) => Err(Fault::Memory),
    }
}

/// Checks the files of a request.
fn check(rt: &HostRuntime, request: &Request<'_>) -> Result<Outcome, Fault> {
    let Some(mut options) = options(rt, request.config)? else {
        return Ok(Outcome::Fault);
    };
    request.add_to(rt.alloc(), &mut options)?;
    let mut lint = Lint {
        rt,
        known: KnownFragments::new(rt.alloc(), options.flags),
        options,
        fix: request.fix,
        json: request.json,
    };
    if request.files.is_empty() {
        lint.check_all(&[STANDARD_INPUT])
    } else {
        lint.check_all(&request.files)
    }
}

/// Prints the help or the version to standard output.
fn print_answer(rt: &HostRuntime, answer: &str) -> Result<Outcome, Fault> {
    match print!(rt; "{answer}") {
        Ok(()) => Ok(Outcome::Clean),
        Err(error) => Err(Fault::writing(&error)),
    }
}
