//! The words of the command line.
use markdown_input::{Fault, Flags, STANDARD_INPUT, is_flag};

/// What `--help` prints.
const HELP: &str = "\
Prints the events of Markdown, one a line: what is entered or left, and where.
With --outline it prints the headings instead.

Usage: markdown-events [OPTIONS] [FILE]

It reads the file, or standard input, whose name is -.

Options:
      --gfm          Read GitHub Flavored Markdown
      --frontmatter  Read frontmatter at the start of a text
      --math         Read $a$, and blocks between lines of $$
      --mark         Read ==text== as marked text
      --all          All four
      --outline      Print the headings: LINE: ## TEXT (#SLUG)
  -h, --help         Print help
  -V, --version      Print version
      --             What follows is the name of a file

A line is: enter or exit, the name, LINE:COLUMN(OFFSET), and at a tab how many of
its columns are before this place, otherwise 0. A slug is the id that GitHub gives
a heading.

Exit status:
  0  all events or headings were written
  1  they were not; standard error has the reason
  2  the command line is wrong
";

/// What `--version` prints.
const VERSION: &str = "markdown-events 0.1.0\n";

/// What a command line asks for.
#[derive(Clone, Copy)]
pub(crate) struct Command<'w> {
    /// What to print, and no events: the help or the version.
    pub(crate) answer: Option<&'static str>,
    /// Which constructs are on beside those of CommonMark.
    pub(crate) flags: Flags,
    /// Whether headings are printed in place of events.
    pub(crate) prints_outline: bool,
    /// The name of the file to read, if there is one.
    file: Option<&'w str>,
    /// Whether all further words are names of files.
    names_only: bool,
}

impl<'w> Command<'w> {
    /// Reads the words, without the name of the program. They may come in any order. Fails with
    /// `Words` if a flag is wrong, or if there are two files.
    pub(crate) fn read(words: &'w [String]) -> Result<Command<'w>, Fault> {
        let mut command = Command {
            answer: None,
            flags: Flags::default(),
            prints_outline: false,
            file: None,
            names_only: false,
        };
        for word in words {
            command = command.with(word.as_str())?;
        }
        Ok(command)
    }

    /// The same with one more word. The first of help and version counts.
    fn with(self, word: &'w str) -> Result<Command<'w>, Fault> {
        if self.names_only {
            return self.with_file(word);
        }
        match word {
            "-h" | "--help" => Ok(self.with_answer(HELP)),
            "-V" | "--version" => Ok(self.with_answer(VERSION)),
            "--outline" => Ok(Command {
                prints_outline: true,
                ..self
            }),
            "--" => Ok(Command {
                names_only: true,
                ..self
            }),
            _ => match self.flags.with(word) {
                Some(flags) => Ok(Command { flags, ..self }),
                None if is_flag(word) => Err(Fault::Words),
                None => self.with_file(word),
            },
        }
    }

    fn with_answer(self, answer: &'static str) -> Command<'w> {
        Command {
            answer: Some(self.answer.unwrap_or(answer)),
            ..self
        }
    }

    /// The same with the name of a file. Fails if there is one already.
    fn with_file(self, name: &'w str) -> Result<Command<'w>, Fault> {
        if self.file.is_some() {
            return Err(Fault::Words);
        }
        Ok(Command {
            file: Some(name),
            ..self
        })
    }

    /// The name of the file to read, or of standard input.
    pub(crate) fn name(&self) -> &'w str {
        self.file.unwrap_or(STANDARD_INPUT)
    }
}
