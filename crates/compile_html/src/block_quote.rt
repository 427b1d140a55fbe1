//! Block quotes (CommonMark 5.1).
ghost use Rattle.std.specs.Prelude.{◌≡◌, OnOk, false};
ghost use Rattle.markdown_compile_options.specs.declared.configuration.CompileOptions.{CompileOptions};
ghost use Rattle.html_leaves.specs.Prints.{KeepsEnding};
ghost use Rattle.compile_levels.specs.declared.kind.BlockKind.TheVariants as kinds;
ghost use Rattle.compile_levels.specs.declared.level.Holder.TheVariants as holders;
ghost use Rattle.event_meaning.specs.Left.{Quote, opening, closing};
ghost use Rattle.compile_html.specs.Opened.{within};
ghost use Rattle.compile_html.specs.Views.{opened_of, Prints};

use crate::printer::Printer;
use compile_levels::kind::BlockKind;
use compile_levels::level::Holder;
use std::alloc::{AllocError, Allocator};

impl<A: Allocator + Clone> Printer<A> {
    /// A block quote starts.
    pub(crate) fn enter_quote(&mut self) -> Result<(), AllocError>
        ensures default { KeepsEnding self.old.leaves.page self.new.leaves.page }
        ensures columns { self.new.leaves.columns ≡ self.old.leaves.columns }
        ensures loose { self.new.loose ≡ self.old.loose }
        ensures opened { OnOk result (opened_of self.new ≡ within kinds.Quote holders.Quote false (opened_of self.old)) }
        ensures printed { (options : CompileOptions) → OnOk result (Prints options self.old self.new (opening Quote)) }
    {
        self.leaves.page.fresh_tag("<blockquote>")?;
        self.go_in(BlockKind::Quote, Holder::Quote, false)
    }

    /// A block quote ends.
    pub(crate) fn leave_quote(&mut self) -> Result<(), AllocError>
        ensures default { KeepsEnding self.old.leaves.page self.new.leaves.page }
        ensures columns { self.new.leaves.columns ≡ self.old.leaves.columns }
        ensures loose { self.new.loose ≡ self.old.loose }
        ensures opened { opened_of self.new ≡ opened_of self.old }
        ensures printed { (options : CompileOptions) → OnOk result (Prints options self.old self.new (closing Quote self.old.level.plain)) }
    {
        self.leaves.page.fresh_tag("</blockquote>")
    }
}
