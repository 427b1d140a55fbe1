//! Block quotes (CommonMark 5.1).
ghost use Rattle.std.specs.Prelude.{◌≡◌, OnOk};
ghost use Rattle.markdown_options.specs.LineEndings.{ending_bytes};
ghost use Rattle.html_rows.specs.Printing.{enter_quote, leave_quote};
ghost use Rattle.html_blocks.specs.ContainersView.{containers_view};
ghost use Rattle.html_leaves.specs.Prints.{KeepsEnding};

use crate::container::Containers;
use html_leaves::Page;
use html_looseness::Holder;
use std::alloc::{AllocError, Allocator};

impl<A: Allocator + Clone> Containers<A> {
    /// A block quote starts (CommonMark 5.1).
    pub fn enter_quote(&mut self, page: &mut Page<A>) -> Result<(), AllocError>
        ensures default { KeepsEnding page.old page.new }
        ensures printed { OnOk result (containers_view page.new self.new
            ≡ enter_quote (ending_bytes page.old.default_ending) (containers_view page.old self.old)) }
    {
        page.fresh_tag("<blockquote>")?;
        self.enter(Holder::Quote, false)
    }

    /// A block quote ends.
    pub(crate) fn leave_quote(&mut self, page: &mut Page<A>) -> Result<(), AllocError>
        ensures default { KeepsEnding page.old page.new }
        ensures printed { OnOk result (containers_view page.new self.new
            ≡ leave_quote (ending_bytes page.old.default_ending) (containers_view page.old self.old)) }
    {
        page.fresh_tag("</blockquote>")?;
        self.leave();
        Ok(())
    }
}
