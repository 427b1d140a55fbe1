//! Lists (CommonMark 5.3).
ghost use Rattle.std.specs.Prelude.{◌≡◌, OnOk};
ghost use Rattle.html_leaves.specs.Prints.{KeepsEnding};
ghost use Rattle.markdown_options.specs.LineEndings.{ending_bytes};
ghost use Rattle.html_rows.specs.Printing.{enter_list, leave_list};
ghost use Rattle.html_blocks.specs.ContainersView.{containers_view};

use crate::container::Containers;
use html_leaves::Page;
use html_looseness::Holder;
use std::alloc::{AllocError, Allocator};

impl<A: Allocator + Clone> Containers<A> {
    /// A list starts (CommonMark 5.3).
    pub(crate) fn enter_list(
        &mut self,
        page: &mut Page<A>,
        number: Option<u32>,
        tight: bool,
    ) -> Result<(), AllocError>
        ensures default { KeepsEnding page.old page.new }
        ensures printed { let default = ending_bytes page.old.default_ending in
            OnOk result (containers_view page.new self.new ≡ enter_list default number tight (containers_view page.old self.old)) }
    {
        page.fresh()?;
        page.list_tag(number)?;
        self.enter(Holder::List { number }, tight)
    }

    /// A list ends, if one is open.
    pub(crate) fn leave_list(&mut self, page: &mut Page<A>) -> Result<(), AllocError>
        ensures default { KeepsEnding page.old page.new }
        ensures printed { OnOk result (containers_view page.new self.new
            ≡ leave_list (ending_bytes page.old.default_ending) (containers_view page.old self.old)) }
    {
        if let Holder::List { number } = self.level.holder {
            page.eol()?;
            page.list_end(number)?;
            self.leave();
        }
        Ok(())
    }
}
