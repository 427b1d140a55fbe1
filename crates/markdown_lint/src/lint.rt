//! Files and their findings.
use crate::mend::{mended_file, mended_text};
use crate::outcome::Outcome;
use lint_files::{FolderOf, KnownFragments, events_of};
use lint_output::{Form, write_findings};
use lint_rules::{Document, Finding, Settings, findings_of};
use lint_settings::Options;
use markdown_input::{Fault, STANDARD_INPUT, markdown_files, text};
use markdown_tables::Builtin;
use std::io::{BufWriter, Write};
use std::path::Path;

/// How files are checked.
#[derive(Drop)]
pub(crate) struct Lint<'a> {
    pub(crate) rt: &'a HostRuntime,
    pub(crate) options: Options,
    /// Whether findings are mended.
    pub(crate) fix: bool,
    /// Whether findings are printed as JSON.
    pub(crate) json: bool,
    /// The fragments of the files that links led to so far.
    pub(crate) known: KnownFragments,
}

impl Lint<'_> {
    /// Checks files and folders, and prints what is found in them. One that can't be checked is named on
    /// standard error, and the others are checked all the same.
    pub(crate) fn check_all(&mut self, names: &[&str]) -> Result<Outcome, Fault> {
        let mut writer = match BufWriter::new(self.rt.alloc(), self.rt.stdout()) {
            Ok(writer) => writer,
            Err(error) => return Err(Fault::writing(&error)),
        };
        let mut outcome = Outcome::Clean;
        for name in names {
            outcome = outcome.and(self.check_name(name, &mut writer)?);
        }
        match writer.flush() {
            Ok(()) => Ok(outcome),
            Err(error) => Err(Fault::writing(&error)),
        }
    }

    /// Checks a file, or the files below a folder.
    fn check_name<W: Write>(&mut self, name: &str, writer: &mut W) -> Result<Outcome, Fault> {
        if name == STANDARD_INPUT || !Path::new(name).is_dir(self.rt) {
            return self.check_file(name, writer);
        }
        let files = match markdown_files(self.rt, name, &self.options.ignored) {
            Ok(files) => files,
            Err(error) => return Ok(self.fault(name, Fault::reading(&error))),
        };
        let mut outcome = Outcome::Clean;
        for file in &files {
            outcome = outcome.and(self.check_file(file.as_str(), writer)?);
        }
        Ok(outcome)
    }

    /// Names a file that can't be checked.
    fn fault(&self, name: &str, fault: Fault) -> Outcome {
        let rt = self.rt;
        let _ = eprintln!(rt; "markdown-lint: {name}: {}", fault.words());
        Outcome::Fault
    }

    /// Checks a file, or standard input. Fails if the findings can't be written.
    fn check_file<W: Write>(&mut self, name: &str, writer: &mut W) -> Result<Outcome, Fault> {
        let text = match self.text(name) {
            Ok(text) => text,
            Err(fault) => return Ok(self.fault(name, fault)),
        };
        if self.fix && name == STANDARD_INPUT {
            return print_text(writer, text.as_str());
        }
        let findings = match self.findings(name, text.as_str()) {
            Ok(findings) => findings,
            Err(fault) => return Ok(self.fault(name, fault)),
        };
        let form = Form {
            columns: self.options.columns,
            json: self.json,
        };
        match write_findings(
            self.rt.alloc(),
            writer,
            form,
            name,
            text.as_str(),
            &findings,
        ) {
            Ok(()) => Ok(outcome_of(&findings)),
            Err(error) => Err(Fault::writing(&error)),
        }
    }

    /// The text of a file, or of standard input, mended if that is asked for.
    fn text(&self, name: &str) -> Result<String, Fault> {
        let text = text(self.rt, name)?;
        if !self.fix {
            Ok(text)
        } else if name == STANDARD_INPUT {
            mended_text(self.rt, &self.options, text.as_str())
        } else {
            mended_file(self.rt, &self.options, name, text.as_str())
        }
    }

    /// The findings of a text. Fails with `Size` or `Memory`.
    fn findings(&mut self, name: &str, text: &str) -> Result<Vec<Finding>, Fault> {
        let flags = self.options.flags;
        let events = events_of(self.rt.alloc(), text, &flags.options(), &Builtin)?;
        let document = Document {
            bytes: text.as_bytes(),
            events: &events,
            gfm: flags.gfm,
        };
        let settings = settings_of(&self.options);
        let mut folder = FolderOf {
            rt: self.rt,
            file: name,
            known: &mut self.known,
        };
        Ok(findings_of(self.rt.alloc(), &document, &settings, &mut folder)?)
    }
}

/// What is to be found.
fn settings_of(options: &Options) -> Settings {
    let usual = Settings::new(options.rules());
    Settings {
        siblings: options.siblings,
        line_length: options.line_length.unwrap_or(usual.line_length),
        level_indent: options.level_indent.unwrap_or(usual.level_indent),
        ..usual
    }
}

/// Prints a text that was mended.
fn print_text<W: Write>(writer: &mut W, text: &str) -> Result<Outcome, Fault> {
    match write!(writer, "{text}") {
        Ok(()) => Ok(Outcome::Clean),
        Err(error) => Err(Fault::writing(&error)),
    }
}

fn outcome_of(findings: &[Finding]) -> Outcome {
    if findings.is_empty() {
        Outcome::Clean
    } else {
        Outcome::Findings
    }
}
