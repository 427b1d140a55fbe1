//! The words of the command line.
use markdown_input::{Fault, STANDARD_INPUT, is_flag};
use std::alloc::Global;

/// What `--help` prints.
const HELP: &str = "\
Tells whether HTML pages are safe: no scripts, styles, comments or other tags
and attributes than Markdown needs, and no URLs with other protocols. Prints a
line for each page that isn't, with the first place: FILE:LINE:COLUMN: WHAT.

Usage: markdown-safe [OPTIONS] [FILE..]

It reads the files, or standard input, whose name is -. Columns are in bytes.

Options:
      --clean    Print what is kept of the HTML of the files: the elements and
                 attributes of a fixed list; other tags are printed as text
      --listed   Let pages have elements and attributes of that list, too, as
                 they are printed with --clean; prints no place: FILE: WHAT
  -h, --help     Print help
  -V, --version  Print version
      --         What follows are names of files

Exit status:
  0  all pages are safe, or what is kept of all was written
  1  a page isn't safe
  2  the command line is wrong, or a file can't be read or isn't UTF-8
";

/// What `--version` prints.
const VERSION: &str = "markdown-safe 0.1.0\n";

/// What a command line asks for.
#[derive(Drop)]
pub(crate) struct Command<'w> {
    /// What to print, in place of a check: the help or the version.
    pub(crate) answer: Option<&'static str>,
    /// The names of the files. There is at least one.
    pub(crate) files: Vec<&'w str>,
    /// Whether the files are sanitized in place of a check.
    pub(crate) cleans: bool,
    /// Whether the pages that are checked may have tags of the list, too.
    pub(crate) listed: bool,
    /// Whether all further words are names of files.
    names_only: bool,
}

impl<'w> Command<'w> {
    /// Reads the words, without the name of the program. Fails with `Words` if an option is wrong,
    /// or with `Memory`.
    pub(crate) fn read(alloc: Global, words: &'w [String]) -> Result<Command<'w>, Fault> {
        let mut command = Command {
            answer: None,
            files: Vec::new(alloc),
            cleans: false,
            listed: false,
            names_only: false,
        };
        for word in words {
            command.add(word.as_str())?;
        }
        if command.files.is_empty() {
            command.files.push(STANDARD_INPUT)?;
        }
        Ok(command)
    }

    /// Adds a word. The first of help and version counts.
    fn add(&mut self, word: &'w str) -> Result<(), Fault> {
        match word {
            _ if self.names_only => self.files.push(word)?,
            "-h" | "--help" => self.set_answer(HELP),
            "-V" | "--version" => self.set_answer(VERSION),
            "--clean" => self.cleans = true,
            "--listed" => self.listed = true,
            "--" => self.names_only = true,
            _ if is_flag(word) => return Err(Fault::Words),
            _ => self.files.push(word)?,
        }
        Ok(())
    }

    fn set_answer(&mut self, answer: &'static str) {
        self.answer = Some(self.answer.unwrap_or(answer));
    }
}
