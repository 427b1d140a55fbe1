//! Where containers start and end (CommonMark 5).
ghost use Rattle.std.specs.Prelude.{◌≡◌, OnOk};
ghost use Rattle.markdown_compile_options.specs.declared.configuration.CompileOptions.{CompileOptions};
ghost use Rattle.html_leaves.specs.Prints.{KeepsEnding};
ghost use Rattle.event_meaning.specs.Left.{closing};
ghost use Rattle.compile_html.specs.Frames.{holder_view};
ghost use Rattle.compile_html.specs.Opened.{within, outside};
ghost use Rattle.compile_html.specs.Views.{opened_of, Prints};

use crate::printer::Printer;
use compile_levels::kind::BlockKind;
use compile_levels::level::{Holder, Level};
use std::alloc::{AllocError, Allocator};

impl<A: Allocator + Clone> Printer<A> {
    /// The innermost container or list ends.
    pub(crate) fn leave(&mut self) -> Result<(), AllocError>
        ensures default { KeepsEnding self.old.leaves.page self.new.leaves.page }
        ensures columns { self.new.leaves.columns ≡ self.old.leaves.columns }
        ensures loose { self.new.loose ≡ self.old.loose }
        ensures opened { OnOk result (opened_of self.new ≡ outside (opened_of self.old)) }
        ensures printed { (options : CompileOptions) →
            OnOk result (Prints options self.old self.new (closing (holder_view self.old.level.holder) self.old.level.plain)) }
    {
        self.close()?;
        self.go_out();
        Ok(())
    }

    /// Prints the end of the innermost container or list.
    fn close(&mut self) -> Result<(), AllocError>
        ensures default { KeepsEnding self.old.leaves.page self.new.leaves.page }
        ensures columns { self.new.leaves.columns ≡ self.old.leaves.columns }
        ensures loose { self.new.loose ≡ self.old.loose }
        ensures opened { opened_of self.new ≡ opened_of self.old }
        ensures printed { (options : CompileOptions) →
            OnOk result (Prints options self.old self.new (closing (holder_view self.old.level.holder) self.old.level.plain)) }
    {
        match self.level.holder {
            Holder::Document => Ok(()),
            Holder::Quote => self.leave_quote(),
            Holder::List { number } => self.leave_list(number),
            Holder::Item => self.leave_item(),
            Holder::Footnote => self.leave_footnote(),
        }
    }

    /// Goes into a container or a list.
    pub(crate) fn go_in(
        &mut self,
        kind: BlockKind,
        holder: Holder,
        tight: bool,
    ) -> Result<(), AllocError>
        ensures leaves { self.new.leaves ≡ self.old.leaves }
        ensures loose { self.new.loose ≡ self.old.loose }
        ensures opened { OnOk result (opened_of self.new ≡ within kind holder tight (opened_of self.old)) }
    {
        self.level.pass(kind);
        self.outer.push(self.level)?;
        self.level = Level::new(holder, tight);
        Ok(())
    }

    /// Goes out of one.
    fn go_out(&mut self)
        ensures leaves { self.new.leaves ≡ self.old.leaves }
        ensures loose { self.new.loose ≡ self.old.loose }
        ensures opened { opened_of self.new ≡ outside (opened_of self.old) }
    {
        if let Some(level) = self.outer.pop() {
            self.level = level;
        }
    }
}
