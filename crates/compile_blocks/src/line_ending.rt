//! Line endings between blocks (CommonMark 2.1).
ghost use Rattle.std.specs.Prelude.{◌≡◌, if◌then◌else◌, [], ◌∷◌, OnOk};
ghost use Rattle.markdown_compile_options.specs.declared.configuration.CompileOptions.{CompileOptions};
ghost use Rattle.definition_page.specs.GfmTable.{endings_pieces};
ghost use Rattle.html_bytes.specs.Pieces.{in_bytes};
ghost use Rattle.html_leaves.specs.Prints.{KeepsEnding, LaysOut};

use crate::printer::LeafPrinter;
use markdown_options::LineEnding;
use std::alloc::{AllocError, Allocator};

impl<A: Allocator + Clone> LeafPrinter<A> {
    /// Prints an ending between blocks, unless it follows a block that prints nothing.
    pub fn line_ending(&mut self, silent: bool, ending: LineEnding) -> Result<(), AllocError>
        ensures default { KeepsEnding self.old.page self.new.page }
        ensures columns { self.new.columns ≡ self.old.columns }
        ensures printed { (options : CompileOptions) →
            OnOk result (LaysOut options self.old.page self.new.page (in_bytes (if silent then [] else endings_pieces (ending ∷ [])))) }
    {
        if silent {
            return Ok(());
        }
        self.page.push_ending(Some(ending))
    }
}
