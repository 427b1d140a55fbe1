//! Which parts of lines are code or math.
use engine_events::event::Name;
use lint_document::document::{Depth, Step};

/// Reads the events of a text, and knows what of it is code or math.
#[derive(Clone, Copy, Default)]
pub(crate) struct Code {
    /// The code and math that are open.
    open: Depth,
    /// Whether a fence is on this line.
    has_fence: bool,
    /// Where the content of code or math ends that was read last.
    end: usize,
}

impl Code {
    /// Reads the next event.
    pub(crate) fn read(&mut self, step: &Step<'_>) {
        match step.name {
            Name::CodeFenced
            | Name::CodeIndented
            | Name::CodeText
            | Name::MathFlow
            | Name::MathText => self.open.count(step.kind),
            Name::CodeFencedFence | Name::MathFlowFence => self.has_fence = true,
            Name::CodeFlowChunk | Name::CodeTextData | Name::MathFlowChunk | Name::MathTextData =>
                self.end = step.index,
            _ if step.starts_line() => self.has_fence = false,
            _ => {}
        }
    }

    /// Whether code or math is open.
    pub(crate) fn is_open(&self) -> bool {
        self.open.is_inside()
    }

    /// Whether white space is code or math that ends a line at an index.
    pub(crate) fn has_end(&self, index: usize) -> bool {
        self.end == index || self.is_open() && !self.has_fence
    }
}
