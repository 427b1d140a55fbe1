//! Files of settings, which are TOML.
use std::alloc::{AllocError, Global};
use std::path::{Path, PathBuf};
use std::rt::{Env, Files};
use std::{env, io};
use toml::{Table, Value};

/// The first file of a name in the folder that the program runs in and those around it, if there is one.
pub fn config_file<R: Files + Env + AllocGlobal>(
    rt: &R,
    name: &str,
) -> io::Result<Option<PathBuf>> {
    let start = env::current_dir(rt)?;
    let mut folder: Option<Path<'_>> = Some(start.as_path());
    // No path has more folders than bytes.
    for _ in 0..=start.as_str().len() {
        let Some(path) = folder else {
            break;
        };
        let file = path.join(rt.alloc(), name)?;
        if file.is_file(rt) {
            return Ok(Some(file));
        }
        folder = path.parent();
    }
    Ok(None)
}

/// Why a file of settings can't be used.
#[derive(Drop)]
pub enum ConfigFault {
    /// What is wrong on a line, which counts from 1.
    Line(usize, String),
    /// Memory ran out.
    Memory,
}

impl From<AllocError> for ConfigFault {
    fn from(_error: AllocError) -> ConfigFault {
        ConfigFault::Memory
    }
}

/// A file of settings: its text, in which faults have their lines.
#[derive(Clone, Copy)]
pub struct Config<'a> {
    pub alloc: Global,
    pub text: &'a str,
}

impl Config<'_> {
    /// The keys and their values. Fails with `Line` if the text isn't TOML, or with `Memory`.
    pub fn table(&self) -> Result<Table, ConfigFault> {
        match toml::table_from_str(self.alloc, self.text) {
            Ok(table) => Ok(table),
            Err(error) => Err(match error.span() {
                Some(span) => self.fault(line_of_index(self.text, span.start), error.message()),
                None => ConfigFault::Memory,
            }),
        }
    }

    /// The value of a key that is true or false.
    pub fn switch(&self, key: &str, value: &Value) -> Result<bool, ConfigFault> {
        match value.as_bool() {
            Some(is_on) => Ok(is_on),
            None => Err(self.key_fault(key, "wants true or false")),
        }
    }

    /// The fault of a key.
    pub fn key_fault(&self, key: &str, what: &str) -> ConfigFault {
        self.fault(line_of_key(self.text, key), what)
    }

    /// The fault of a text in the value of a key.
    pub fn item_fault(&self, key: &str, item: &str, what: &str) -> ConfigFault {
        self.fault(line_of_item(self.text, key, item), what)
    }

    /// A fault on a line.
    fn fault(&self, line: usize, what: &str) -> ConfigFault {
        match String::from_str(self.alloc, what) {
            Ok(what) => ConfigFault::Line(line, what),
            Err(_) => ConfigFault::Memory,
        }
    }
}

/// The line of a key of a file, from 1: the first that begins with it, or else the first.
fn line_of_key(text: &str, key: &str) -> usize {
    let number = text.lines().position(|line| begins_with_key(line, key));
    number.unwrap_or(0).saturating_add(1)
}

/// The line of a text in the value of a key, from 1: the first with that text from that of the key on, or
/// else that of the key.
fn line_of_item(text: &str, key: &str, item: &str) -> usize {
    let first = line_of_key(text, key);
    let mut lines = text.lines().skip(first.saturating_sub(1));
    let number = lines.position(|line| line.contains(item));
    first.saturating_add(number.unwrap_or(0))
}

/// The line of a byte, from 1.
fn line_of_index(text: &str, index: usize) -> usize {
    let before = text.as_bytes().iter().take(index);
    before
        .filter(|byte| **byte == b'\n')
        .count()
        .saturating_add(1)
}

/// Whether a line begins with a key, which may be quoted or in brackets.
fn begins_with_key(line: &str, key: &str) -> bool {
    let start = line.trim_start().trim_start_matches(['[', '"', '\'']);
    match start.strip_prefix(key) {
        Some(after) => !after.starts_with(is_of_key),
        None => false,
    }
}

/// Whether a character may be in a key without quotes.
fn is_of_key(character: char) -> bool {
    character.is_ascii_alphanumeric() || matches!(character, '-' | '_')
}
