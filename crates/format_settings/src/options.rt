//! What both the command line and a file of settings can ask for.
use markdown_format::{BreakStyle, Style, TableStyle};
use markdown_input::Flags;
use std::alloc::{AllocError, Global};

/// The rule that is off by default: fences that it makes name no language, which `markdown-lint` finds.
const OFF: &str = "code-indented";

/// What is asked for.
#[derive(Drop)]
pub struct Options {
    /// How texts are formatted.
    pub style: Style,
    /// Which constructs are on beside those of CommonMark.
    pub flags: Flags,
    /// The names of files and folders that are left out below folders.
    pub ignored: Vec<String>,
}

impl Options {
    /// Nothing is asked for.
    pub fn new(alloc: Global) -> Options {
        let mut style = Style::default();
        style.rules.set(OFF, false);
        Options {
            style,
            flags: Flags::default(),
            ignored: Vec::new(alloc),
        }
    }

    /// Adds the name of a file or a folder that is left out.
    pub fn ignore(&mut self, alloc: Global, name: &str) -> Result<(), AllocError> {
        let name = String::from_str(alloc, name)?;
        self.ignored.push(name)?;
        Ok(())
    }

    /// Pads tables, or doesn't.
    pub fn set_padded(&mut self, is_padded: bool) {
        self.style.tables = if is_padded {
            TableStyle::Padded
        } else {
            TableStyle::Compact
        };
    }
}

/// How hard breaks are written, by its word.
pub fn hard_breaks_of(word: &str) -> Option<BreakStyle> {
    match word {
        "spaces" => Some(BreakStyle::Spaces),
        "backslash" => Some(BreakStyle::Backslash),
        _ => None,
    }
}
