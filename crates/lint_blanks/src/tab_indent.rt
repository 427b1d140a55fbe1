//! tab-indent (MD010): a tab in the indent of a line.
//!
//! In Markdown a tab goes to the next multiple of four columns (CommonMark 2.2), but editors show it in other
//! widths: what looks like the content of an item may be none. Lines of code and of math aren't looked at,
//! nor are blank lines, nor tabs after a marker.
//!
//! Example: `b` after a tab, on the line after `- a`.
use crate::code::Code;
use engine_events::event::Name;
use lint_document::document::{Step, is_space, is_white};
use lint_document::{Document, Report, Rule, Span};
use std::alloc::AllocError;

/// Reads the indents of lines.
#[derive(Clone, Copy)]
pub(crate) struct TabIndent {
    /// The tabs in the indent of this line, while it isn't known whether the line is code.
    indent: Option<Span>,
}

impl TabIndent {
    /// At the start of a text.
    pub(crate) fn new(document: &Document<'_>) -> TabIndent {
        TabIndent {
            indent: indent_at(document, 0),
        }
    }

    /// Whether it isn't known yet if the line is code, so that each event is asked for.
    pub(crate) fn is_waiting(&self) -> bool {
        self.indent.is_some()
    }

    /// Reads the next event, before which code is open or not. Reports the indent of its line if that has a
    /// tab and the line is no code.
    pub(crate) fn read(
        &mut self,
        document: &Document<'_>,
        step: &Step<'_>,
        code: &Code,
        report: &mut Report,
    ) -> Result<(), AllocError> {
        let found = self.found(step, code);
        if step.starts_line() {
            self.indent = indent_at(document, step.index);
        }
        match found {
            Some(indent) => report.add(Rule::TabIndent, indent, "tab in the indent of a line"),
            None => Ok(()),
        }
    }

    /// The tabs before this event, if it is the first after the indent and the line is no code.
    fn found(&mut self, step: &Step<'_>, code: &Code) -> Option<Span> {
        let indent = self.indent?;
        if step.name == Name::SpaceOrTab || step.index < indent.end {
            return None;
        }
        self.indent = None;
        if code.is_open() || step.name == Name::CodeIndented {
            None
        } else {
            Some(indent)
        }
    }
}

/// The indent of the line that starts at an index, from its first tab on, if it has one and the line
/// isn't blank.
fn indent_at(document: &Document<'_>, start: usize) -> Option<Span> {
    let bytes = document.bytes.get(start..)?;
    let size = bytes.iter().position(|byte| !is_space(*byte))?;
    if is_white(*bytes.get(size)?) {
        return None;
    }
    let indent = bytes.get(..size)?;
    let tab = indent.iter().position(|byte| *byte == b'\t')?;
    Some(Span {
        start: start.saturating_add(tab),
        end: start.saturating_add(size),
    })
}
