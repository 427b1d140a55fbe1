//! What both the command line and a file of settings can ask for.
use lint_document::{Columns, Rule, RuleSet};
use markdown_input::Flags;
use std::alloc::{AllocError, Global};

/// What is asked for.
#[derive(Drop)]
pub struct Options {
    /// Which constructs are on beside those of CommonMark.
    pub flags: Flags,
    /// The rules that alone are asked for, if any are.
    pub(crate) only: Option<RuleSet>,
    /// The rules that are turned off.
    pub(crate) disabled: RuleSet,
    /// Whether headings of different sections may have the same text.
    pub siblings: bool,
    /// What columns count.
    pub columns: Columns,
    /// The most characters that a line may have, if that is said.
    pub line_length: Option<usize>,
    /// The columns that lists of bullets are indented by for each level, if that is said.
    pub level_indent: Option<usize>,
    /// The folders and files that aren't read below a folder, by their names or ends of their paths.
    pub ignored: Vec<String>,
}

impl Options {
    /// Nothing is asked for.
    pub fn new(alloc: Global) -> Options {
        Options {
            flags: Flags::default(),
            only: None,
            disabled: RuleSet::NONE,
            siblings: false,
            columns: Columns::Bytes,
            line_length: None,
            level_indent: None,
            ignored: Vec::new(alloc),
        }
    }

    /// The rules that are on. Of those that aren't asked for alone `line-length` is on only with a length.
    pub fn rules(&self) -> RuleSet {
        let mut rules = match self.only {
            Some(only) => only,
            None => RuleSet::ALL,
        };
        if self.only.is_none() && self.line_length.is_none() {
            rules.remove(Rule::LineLength);
        }
        rules.change(&self.disabled, false);
        rules
    }

    /// Asks for a rule alone, or beside others that are asked for alone.
    pub(crate) fn add_only(&mut self, rule: Rule) {
        let mut only = self.only.unwrap_or(RuleSet::NONE);
        only.insert(rule);
        self.only = Some(only);
    }

    /// Leaves out folders and files, by a name or the end of a path.
    pub(crate) fn ignore(&mut self, alloc: Global, name: &str) -> Result<(), AllocError> {
        let name = String::from_str(alloc, name)?;
        self.ignored.push(name)?;
        Ok(())
    }
}

/// What columns count, by its word.
pub(crate) fn columns_of(word: &str) -> Option<Columns> {
    match word {
        "bytes" => Some(Columns::Bytes),
        "characters" => Some(Columns::Characters),
        _ => None,
    }
}

/// A number of characters or columns, which is not 0.
pub(crate) fn length_of(number: i64) -> Option<usize> {
    match usize::try_from(number) {
        Ok(0) | Err(_) => None,
        Ok(length) => Some(length),
    }
}
