//! What the words of the command line ask for.
use crate::help::{HELP, VERSION};
use crate::options::{Options, columns_of, length_of};
use crate::refusal::Refusal;
use lint_document::{Columns, Rule, RuleSet};
use markdown_input::{Flags, is_flag};
use std::alloc::{AllocError, Global};

/// What the words of the command line ask for.
#[derive(Drop)]
pub struct Request<'w> {
    /// The file of settings, if one is named.
    pub config: Option<&'w str>,
    /// Whether findings are mended.
    pub fix: bool,
    /// Whether findings are printed as JSON.
    pub json: bool,
    /// The names of the files and folders to check, or none if none is named.
    pub files: Vec<&'w str>,
    flags: Flags,
    siblings: bool,
    columns: Option<Columns>,
    line_length: Option<usize>,
    disabled: RuleSet,
    only: Option<RuleSet>,
    ignored: Vec<&'w str>,
    /// The option whose value is the next word.
    open: Option<Key>,
    /// Whether all words from here on are names of files.
    is_past_options: bool,
}

/// An option with a value.
#[derive(Clone, Copy)]
enum Key {
    Columns,
    Config,
    Disable,
    Ignore,
    LineLength,
    Only,
}

/// The option with a value that a word names, if it names one.
fn key_of(word: &str) -> Result<Key, Refusal> {
    match word {
        "--columns" => Ok(Key::Columns),
        "--config" => Ok(Key::Config),
        "--disable" => Ok(Key::Disable),
        "--ignore" => Ok(Key::Ignore),
        "--line-length" => Ok(Key::LineLength),
        "--only" => Ok(Key::Only),
        _ => Err(Refusal::Words),
    }
}

impl<'w> Request<'w> {
    /// Reads the words of the command line, without the name of the program. Options and files may come in
    /// any order, and after `--` there are only files. Fails with `Answer` at the first word that asks for
    /// the help or the version, or with what is wrong.
    pub fn read(alloc: Global, words: &'w [String]) -> Result<Request<'w>, Refusal> {
        let mut request = Request {
            config: None,
            fix: false,
            json: false,
            files: Vec::new(alloc),
            flags: Flags::default(),
            siblings: false,
            columns: None,
            line_length: None,
            disabled: RuleSet::NONE,
            only: None,
            ignored: Vec::new(alloc),
            open: None,
            is_past_options: false,
        };
        for word in words {
            request.add(alloc, word.as_str())?;
        }
        match request.open {
            Some(_) => Err(Refusal::Words),
            None => Ok(request),
        }
    }

    /// Adds a word.
    fn add(&mut self, alloc: Global, word: &'w str) -> Result<(), Refusal> {
        let is_option = !self.is_past_options && is_flag(word);
        match self.open.take() {
            Some(_) if is_option => Err(Refusal::Words),
            Some(key) => self.set(alloc, key, word),
            None if is_option => self.add_option(alloc, word),
            None => Ok(self.files.push(word)?),
        }
    }

    /// Adds a word that begins with `-`.
    fn add_option(&mut self, alloc: Global, word: &'w str) -> Result<(), Refusal> {
        match word {
            "-h" | "--help" => return Err(Refusal::Answer(HELP)),
            "-V" | "--version" => return Err(Refusal::Answer(VERSION)),
            "--siblings" => self.siblings = true,
            "--fix" => self.fix = true,
            "--json" => self.json = true,
            "--" => self.is_past_options = true,
            _ => match (self.flags.with(word), word.split_once('=')) {
                (Some(flags), _) => self.flags = flags,
                (None, Some((name, value))) => return self.set(alloc, key_of(name)?, value),
                (None, None) => self.open = Some(key_of(word)?),
            },
        }
        Ok(())
    }

    /// Sets the value of an option.
    fn set(&mut self, alloc: Global, key: Key, value: &'w str) -> Result<(), Refusal> {
        match key {
            Key::Config => self.config = Some(value),
            Key::Ignore => self.ignored.push(value)?,
            Key::Disable => self.disabled.insert(rule_of(alloc, value)?),
            Key::Only => {
                let mut only = self.only.unwrap_or(RuleSet::NONE);
                only.insert(rule_of(alloc, value)?);
                self.only = Some(only);
            }
            Key::Columns => self.columns = Some(wanted(columns_of(value))?),
            Key::LineLength => {
                self.line_length = Some(wanted(value.parse().ok().and_then(length_of))?);
            }
        }
        Ok(())
    }

    /// Adds what the words ask for to what the settings ask for. `--only`, `--columns` and `--line-length`
    /// drop those of the settings. Fails if memory runs out.
    pub fn add_to(&self, alloc: Global, options: &mut Options) -> Result<(), AllocError> {
        options.flags = both(options.flags, self.flags);
        options.siblings = options.siblings || self.siblings;
        options.columns = self.columns.unwrap_or(options.columns);
        options.line_length = self.line_length.or(options.line_length);
        options.only = self.only.or(options.only);
        options.disabled.change(&self.disabled, true);
        for name in &self.ignored {
            options.ignore(alloc, name)?;
        }
        Ok(())
    }
}

/// What is on by one of two.
fn both(first: Flags, second: Flags) -> Flags {
    Flags {
        gfm: first.gfm || second.gfm,
        frontmatter: first.frontmatter || second.frontmatter,
        math: first.math || second.math,
        mark: first.mark || second.mark,
    }
}

/// A value, or `Words` if there is none.
fn wanted<T>(value: Option<T>) -> Result<T, Refusal> {
    match value {
        Some(value) => Ok(value),
        None => Err(Refusal::Words),
    }
}

/// The rule of a word.
fn rule_of(alloc: Global, word: &str) -> Result<Rule, Refusal> {
    match Rule::of_word(word) {
        Some(rule) => Ok(rule),
        None => Err(Refusal::Rule(String::from_str(alloc, word)?)),
    }
}
