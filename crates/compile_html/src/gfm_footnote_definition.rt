//! Footnote definitions, whose blocks are printed at the page's end (in neither standard).
ghost use Rattle.std.specs.Prelude.{◌≡◌, OnOk, false};
ghost use Rattle.markdown_compile_options.specs.declared.configuration.CompileOptions.{CompileOptions};
ghost use Rattle.html_leaves.specs.Prints.{KeepsEnding};
ghost use Rattle.compile_levels.specs.declared.kind.BlockKind.TheVariants as kinds;
ghost use Rattle.compile_levels.specs.declared.level.Holder.TheVariants as holders;
ghost use Rattle.event_meaning.specs.Left.{Footnote, opening, closing};
ghost use Rattle.compile_html.specs.Opened.{within};
ghost use Rattle.compile_html.specs.Views.{opened_of, Prints};

use crate::printer::Printer;
use compile_levels::kind::BlockKind;
use compile_levels::level::Holder;
use std::alloc::{AllocError, Allocator};

impl<A: Allocator + Clone> Printer<A> {
    /// A footnote definition starts: what it holds is printed into a text of its own.
    pub(crate) fn enter_footnote(&mut self) -> Result<(), AllocError>
        ensures default { KeepsEnding self.old.leaves.page self.new.leaves.page }
        ensures columns { self.new.leaves.columns ≡ self.old.leaves.columns }
        ensures loose { self.new.loose ≡ self.old.loose }
        ensures opened { OnOk result (opened_of self.new ≡ within kinds.Footnote holders.Footnote false (opened_of self.old)) }
        ensures printed { (options : CompileOptions) → OnOk result (Prints options self.old self.new (opening Footnote)) }
    {
        self.leaves.page.start_footnote()?;
        self.go_in(BlockKind::Footnote, Holder::Footnote, false)
    }

    /// A footnote definition ends: the text around it goes on.
    pub(crate) fn leave_footnote(&mut self) -> Result<(), AllocError>
        ensures default { KeepsEnding self.old.leaves.page self.new.leaves.page }
        ensures columns { self.new.leaves.columns ≡ self.old.leaves.columns }
        ensures loose { self.new.loose ≡ self.old.loose }
        ensures opened { opened_of self.new ≡ opened_of self.old }
        ensures printed { (options : CompileOptions) → OnOk result (Prints options self.old self.new (closing Footnote self.old.level.plain)) }
    {
        self.leaves.page.end_footnote()
    }
}
