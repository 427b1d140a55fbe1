//! List items (CommonMark 5.2).
ghost use Rattle.std.specs.Prelude.{◌≡◌, OnOk};
ghost use Rattle.markdown_options.specs.LineEndings.{ending_bytes};
ghost use Rattle.html_rows.specs.Printing.{enter_item, start_item, leave_item};
ghost use Rattle.html_blocks.specs.ContainersView.{containers_view};
ghost use Rattle.html_leaves.specs.Prints.{KeepsEnding};

use crate::container::Containers;
use html_leaves::Page;
use html_looseness::Holder;
use std::alloc::{AllocError, Allocator};

impl<A: Allocator + Clone> Containers<A> {
    /// An item starts (CommonMark 5.2). It goes on the list that is open, or starts one.
    pub fn enter_item(&mut self, page: &mut Page<A>, number: Option<u32>) -> Result<(), AllocError>
        ensures default { KeepsEnding page.old page.new }
        ensures printed { OnOk result (containers_view page.new self.new
            ≡ enter_item (ending_bytes page.old.default_ending) number (containers_view page.old self.old)) }
    {
        let place = self.places.pop().unwrap_or_default();
        if !self.level.is_list() {
            self.enter_list(page, number, !place.loose)?;
        }
        self.start_item(page, !place.goes_on)
    }

    /// An item starts, in a list that is open.
    fn start_item(&mut self, page: &mut Page<A>, last: bool) -> Result<(), AllocError>
        ensures default { KeepsEnding page.old page.new }
        ensures printed { OnOk result (containers_view page.new self.new
            ≡ start_item (ending_bytes page.old.default_ending) last (containers_view page.old self.old)) }
    {
        page.fresh_tag("<li>")?;
        self.enter(Holder::Item { last }, self.level.tight)
    }

    /// An item ends. No fresh line stands after a paragraph of a tight item.
    pub(crate) fn leave_item(&mut self, page: &mut Page<A>) -> Result<(), AllocError>
        ensures default { KeepsEnding page.old page.new }
        ensures printed { OnOk result (containers_view page.new self.new
            ≡ leave_item (ending_bytes page.old.default_ending) (containers_view page.old self.old)) }
    {
        if !self.level.plain {
            page.fresh()?;
        }
        page.say("</li>")?;
        self.leave();
        Ok(())
    }
}
