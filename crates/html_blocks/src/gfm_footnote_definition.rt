//! Footnote definitions, whose blocks are printed at the page's end (in neither standard).
ghost use Rattle.std.specs.Prelude.{◌≡◌, OnOk};
ghost use Rattle.html_leaves.specs.Prints.{KeepsEnding};
ghost use Rattle.html_rows.specs.Printing.{enter_footnote, leave_footnote};
ghost use Rattle.html_blocks.specs.ContainersView.{containers_view};

use crate::container::Containers;
use block_rows::Row;
use html_leaves::Page;
use html_looseness::Holder;
use std::alloc::{AllocError, Allocator};

impl<A: Allocator + Clone> Containers<A> {
    /// A footnote definition starts: what it holds is printed into a text of its own.
    pub fn enter_footnote(&mut self, page: &mut Page<A>) -> Result<(), AllocError>
        ensures default { KeepsEnding page.old page.new }
        ensures printed { OnOk result (containers_view page.new self.new ≡ enter_footnote (containers_view page.old self.old)) }
    {
        let mut around = self.level;
        around.pass(Row::EnterFootnote);
        page.start_footnote()?;
        self.enter_at(around, Holder::Footnote, false)
    }

    /// A footnote definition ends: the text around it goes on.
    pub(crate) fn leave_footnote(&mut self, page: &mut Page<A>) -> Result<(), AllocError>
        ensures default { KeepsEnding page.old page.new }
        ensures printed { OnOk result (containers_view page.new self.new ≡ leave_footnote (containers_view page.old self.old)) }
    {
        page.end_footnote()?;
        self.leave();
        Ok(())
    }
}
