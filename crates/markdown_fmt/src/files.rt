//! Files, formatted.
use crate::diff::diff;
use crate::outcome::Outcome;
use format_settings::Command;
use markdown_compile_options::{CompileOptions, Options};
use markdown_format::{SIZE_MAX, format};
use markdown_input::{Fault, STANDARD_INPUT, markdown_files, replace, text};
use std::path::Path;

/// Formats or checks files, and those below folders. One that can't be is named on standard error, and the
/// others are formatted all the same.
pub(crate) fn format_all(rt: &HostRuntime, command: &Command<'_>) -> Outcome {
    let mut outcome = Outcome::Clean;
    for name in &command.files {
        outcome = outcome.and(format_name(rt, command, name));
    }
    outcome
}

/// Formats or checks a file, or the files below a folder.
fn format_name(rt: &HostRuntime, command: &Command<'_>, name: &str) -> Outcome {
    if name == STANDARD_INPUT || !Path::new(name).is_dir(rt) {
        return format_or_name(rt, command, name);
    }
    let files = match markdown_files(rt, name, &command.options.ignored) {
        Ok(files) => files,
        Err(error) => return print_fault(rt, name, Fault::reading(&error)),
    };
    let mut outcome = Outcome::Clean;
    for file in &files {
        outcome = outcome.and(format_or_name(rt, command, file.as_str()));
    }
    outcome
}

/// Formats or checks a file. If it can't be, it is named on standard error.
fn format_or_name(rt: &HostRuntime, command: &Command<'_>, name: &str) -> Outcome {
    match format_file(rt, command, name) {
        Ok(outcome) => outcome,
        Err(fault) => print_fault(rt, name, fault),
    }
}

/// Names a file that can't be formatted on standard error.
fn print_fault(rt: &HostRuntime, name: &str, fault: Fault) -> Outcome {
    let _ = eprintln!(rt; "markdown-fmt: {name}: {}", fault.words());
    Outcome::Fault
}

/// Formats or checks a file, or standard input.
fn format_file(rt: &HostRuntime, command: &Command<'_>, name: &str) -> Result<Outcome, Fault> {
    let text = text(rt, name)?;
    let formatted = formatted(rt, command, &text)?;
    let only_checks = command.checks || command.prints_diff;
    if name == STANDARD_INPUT && !only_checks {
        print_text(rt, &formatted)?;
    } else if formatted == text {
        return Ok(Outcome::Clean);
    } else if command.prints_diff {
        print_text(rt, &diff(rt.alloc(), name, &text, &formatted)?)?;
    } else if command.checks {
        println!(rt; "{name}").map_err(|error| Fault::writing(&error))?;
    } else {
        replace(rt, name, &text, &formatted)?;
    }
    Ok(if only_checks {
        Outcome::Changes
    } else {
        Outcome::Clean
    })
}

fn print_text(rt: &HostRuntime, text: &str) -> Result<(), Fault> {
    print!(rt; "{text}").map_err(|error| Fault::writing(&error))
}

/// A text formatted. Fails with `Size` or `Memory`.
fn formatted(rt: &HostRuntime, command: &Command<'_>, text: &str) -> Result<String, Fault> {
    if text.len() > SIZE_MAX {
        return Err(Fault::Size);
    }
    // Raw HTML and URLs are kept, so that the page shows each change of them.
    let options = Options {
        parse: command.options.flags.options(),
        compile: CompileOptions {
            allow_dangerous_html: true,
            allow_dangerous_protocol: true,
            ..CompileOptions::default()
        },
    };
    format(rt.alloc(), text, &command.options.style, &options).map_err(|_| Fault::Memory)
}
