//! List items (CommonMark 5.2).
ghost use Rattle.std.specs.Prelude.{◌≡◌, OnOk};
ghost use Rattle.markdown_compile_options.specs.declared.configuration.CompileOptions.{CompileOptions};
ghost use Rattle.html_leaves.specs.Prints.{KeepsEnding};
ghost use Rattle.compile_levels.specs.declared.kind.BlockKind.TheVariants as kinds;
ghost use Rattle.compile_levels.specs.declared.level.Holder.TheVariants as holders;
ghost use Rattle.event_meaning.specs.Left.{Item, opening, closing};
ghost use Rattle.compile_html.specs.Opened.{within};
ghost use Rattle.compile_html.specs.Views.{opened_of, Prints};

use crate::printer::Printer;
use compile_levels::kind::BlockKind;
use compile_levels::level::Holder;
use std::alloc::{AllocError, Allocator};

impl<A: Allocator + Clone> Printer<A> {
    /// An item starts.
    pub(crate) fn enter_item(&mut self) -> Result<(), AllocError>
        ensures default { KeepsEnding self.old.leaves.page self.new.leaves.page }
        ensures columns { self.new.leaves.columns ≡ self.old.leaves.columns }
        ensures loose { self.new.loose ≡ self.old.loose }
        ensures opened { OnOk result (opened_of self.new ≡ within kinds.Item holders.Item self.old.level.tight (opened_of self.old)) }
        ensures printed { (options : CompileOptions) → OnOk result (Prints options self.old self.new (opening Item)) }
    {
        self.leaves.page.fresh_tag("<li>")?;
        self.go_in(BlockKind::Item, Holder::Item, self.level.tight)
    }

    /// An item ends. No fresh line is before its end tag after a paragraph of a tight item.
    pub(crate) fn leave_item(&mut self) -> Result<(), AllocError>
        ensures default { KeepsEnding self.old.leaves.page self.new.leaves.page }
        ensures columns { self.new.leaves.columns ≡ self.old.leaves.columns }
        ensures loose { self.new.loose ≡ self.old.loose }
        ensures opened { opened_of self.new ≡ opened_of self.old }
        ensures printed { (options : CompileOptions) → OnOk result (Prints options self.old self.new (closing Item self.old.level.plain)) }
    {
        if !self.level.plain {
            self.leaves.page.fresh()?;
        }
        self.leaves.page.say("</li>")
    }
}
