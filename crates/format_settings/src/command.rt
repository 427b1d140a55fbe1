//! The words of the command line.
use crate::help::{HELP, VERSION};
use crate::options::{Options, hard_breaks_of};
use crate::refusal::Refusal;
use markdown_input::{Fault, STANDARD_INPUT, is_flag};
use std::alloc::Global;

/// What a command line asks for.
#[derive(Drop)]
pub struct Command<'w> {
    alloc: Global,
    /// What to print, and nothing else to do: the help or the version.
    pub answer: Option<&'static str>,
    /// Whether files are only checked.
    pub checks: bool,
    /// Whether what would change is printed. Then files are only checked.
    pub prints_diff: bool,
    /// How files are formatted.
    pub options: Options,
    /// The file of settings, if one is named.
    pub config: Option<&'w str>,
    /// The names of the files and folders. There is at least one.
    pub files: Vec<&'w str>,
    /// The option whose value is the next word.
    wanting: Option<&'w str>,
    /// Whether all further words are names of files.
    names_only: bool,
}

impl<'w> Command<'w> {
    /// Reads the words, without the name of the program. Flags and files may come in any order. What the
    /// words ask for is added to options. Fails with `Rule`, with `Words` if an option is wrong, or with
    /// `Memory`.
    pub fn read(
        alloc: Global,
        words: &'w [String],
        options: Options,
    ) -> Result<Command<'w>, Refusal<'w>> {
        let mut command = Command {
            alloc,
            answer: None,
            checks: false,
            prints_diff: false,
            options,
            config: None,
            files: Vec::new(alloc),
            wanting: None,
            names_only: false,
        };
        for word in words {
            command.add(word.as_str())?;
        }
        if command.wanting.is_some() {
            return Err(Refusal::Fault(Fault::Words));
        }
        if command.files.is_empty() {
            command.files.push(STANDARD_INPUT)?;
        }
        Ok(command)
    }

    /// Adds a word.
    fn add(&mut self, word: &'w str) -> Result<(), Refusal<'w>> {
        if let Some(option) = self.wanting {
            self.wanting = None;
            return self.set_value(option, word);
        }
        if self.names_only {
            self.files.push(word)?;
            return Ok(());
        }
        self.add_word(word)
    }

    /// Adds a word that is no value. The first of help and version counts.
    fn add_word(&mut self, word: &'w str) -> Result<(), Refusal<'w>> {
        match word {
            "-h" | "--help" => self.set_answer(HELP),
            "-V" | "--version" => self.set_answer(VERSION),
            "--" => self.names_only = true,
            "--check" => self.checks = true,
            "--diff" => self.prints_diff = true,
            "--padded-tables" => self.options.set_padded(true),
            "--hard-breaks" | "--disable" | "--enable" | "--ignore" | "--config" => {
                self.wanting = Some(word);
            }
            _ => return self.add_other(word),
        }
        Ok(())
    }

    fn set_answer(&mut self, answer: &'static str) {
        self.answer = Some(self.answer.unwrap_or(answer));
    }

    /// Adds a flag for constructs, an option with its value, or the name of a file.
    fn add_other(&mut self, word: &'w str) -> Result<(), Refusal<'w>> {
        if let Some(flags) = self.options.flags.with(word) {
            self.options.flags = flags;
            return Ok(());
        }
        if !is_flag(word) {
            self.files.push(word)?;
            return Ok(());
        }
        match word.split_once('=') {
            Some((option, value)) => self.set_value(option, value),
            None => Err(Refusal::Fault(Fault::Words)),
        }
    }

    /// Sets the value of an option.
    fn set_value(&mut self, option: &'w str, value: &'w str) -> Result<(), Refusal<'w>> {
        match option {
            "--disable" => self.set_rule(value, false),
            "--enable" => self.set_rule(value, true),
            "--hard-breaks" => self.set_hard_breaks(value),
            "--ignore" => Ok(self.options.ignore(self.alloc, value)?),
            "--config" => {
                self.config = Some(value);
                Ok(())
            }
            _ => Err(Refusal::Fault(Fault::Words)),
        }
    }

    fn set_rule(&mut self, name: &'w str, is_on: bool) -> Result<(), Refusal<'w>> {
        if self.options.style.rules.set(name, is_on) {
            Ok(())
        } else {
            Err(Refusal::Rule(name))
        }
    }

    fn set_hard_breaks(&mut self, value: &str) -> Result<(), Refusal<'w>> {
        match hard_breaks_of(value) {
            Some(hard_breaks) => {
                self.options.style.hard_breaks = hard_breaks;
                Ok(())
            }
            None => Err(Refusal::Fault(Fault::Words)),
        }
    }
}
