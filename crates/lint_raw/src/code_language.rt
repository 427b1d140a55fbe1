//! code-language (MD040): a fenced code block without a language.
//!
//! Without it nothing knows how to color the code. `text` is a language, too.
//!
//! Example: a fence of three backticks and nothing after them.
use engine_events::event::{Kind, Name};
use lint_document::document::Step;
use lint_document::{Report, Rule, Span};
use std::alloc::AllocError;

/// Reads the fences of code.
#[derive(Clone, Copy, Default)]
pub(crate) struct CodeLanguage {
    /// The sequence of the opening fence, while no language was read.
    fence: Option<Span>,
    /// Whether the next fence is an opening one.
    is_first: bool,
}

impl CodeLanguage {
    /// Reads the next event. Reports the opening fence that ends there, if it has no language.
    pub(crate) fn read(&mut self, step: &Step<'_>, report: &mut Report) -> Result<(), AllocError> {
        match self.fence_without(step) {
            Some(fence) => report.add(Rule::CodeLanguage, fence, "code without a language"),
            None => Ok(()),
        }
    }

    /// The sequence of the opening fence that ends here, if it has no language.
    fn fence_without(&mut self, step: &Step<'_>) -> Option<Span> {
        match (step.kind, step.name) {
            (Kind::Enter, Name::CodeFenced) => self.is_first = true,
            (Kind::Exit, Name::CodeFencedFenceSequence) if self.is_first => {
                self.fence = Some(step.span());
            }
            (Kind::Enter, Name::CodeFencedFenceInfo) => self.fence = None,
            (Kind::Exit, Name::CodeFencedFence) => {
                self.is_first = false;
                return self.fence.take();
            }
            _ => {}
        }
        None
    }
}
