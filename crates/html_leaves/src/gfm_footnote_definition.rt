//! The contents of footnotes, which are printed at the page's end (in neither standard).
ghost use Rattle.std.specs.Prelude.{◌≡◌, OnOk};
ghost use Rattle.html_leaves.specs.Prints.{page_view, footnote_text_started, footnote_text_left, KeepsEnding};

use crate::page::Page;
use std::alloc::{AllocError, Allocator};

impl<A: Allocator + Clone> Page<A> {
    /// The content of a footnote starts.
    pub fn start_footnote(&mut self) -> Result<(), AllocError>
        ensures default { KeepsEnding self.old self.new }
        ensures printed { OnOk result (page_view self.new ≡ footnote_text_started (page_view self.old)) }
    {
        self.out.start_footnote()
    }

    /// The content of a footnote ends.
    pub fn end_footnote(&mut self) -> Result<(), AllocError>
        ensures default { KeepsEnding self.old self.new }
        ensures printed { OnOk result (page_view self.new ≡ footnote_text_left (page_view self.old)) }
    {
        self.out.end_footnote()
    }
}
