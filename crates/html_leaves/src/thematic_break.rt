//! Thematic breaks (CommonMark 4.1).
ghost use Rattle.std.specs.Prelude.{OnOk, false};
ghost use Rattle.html_bytes.specs.Document.{Document};
ghost use Rattle.definition_block.specs.Tree.{Break};
ghost use Rattle.definition_page.specs.Read.{on_page};
ghost use Rattle.html_bytes.specs.Html.{leaf_bytes};
ghost use Rattle.html_leaves.specs.Prints.{LaysOut, KeepsEnding};

use crate::page::Page;
use std::alloc::{AllocError, Allocator};

impl<A: Allocator + Clone> Page<A> {
    /// Prints a thematic break (CommonMark 4.1).
    pub fn thematic_break(&mut self) -> Result<(), AllocError>
        ensures default { KeepsEnding self.old self.new }
        ensures printed { (d : Document) → OnOk result (LaysOut d.options.compile self.old self.new (leaf_bytes d on_page false Break)) }
    {
        self.fresh_tag("<hr />")
    }
}
