//! Indented code (CommonMark 4.4).
ghost use Rattle.std.specs.Prelude.{OnOk, false};
ghost use Rattle.html_bytes.specs.Document.{Document};
ghost use Rattle.definition_text.specs.BlockLines.{own_lines};
ghost use Rattle.definition_block.specs.Tree.{IndentedCode};
ghost use Rattle.definition_page.specs.Read.{on_page};
ghost use Rattle.html_bytes.specs.Html.{leaf_bytes};
ghost use Rattle.text_pieces.specs.Pieces.{piece_lines};
ghost use Rattle.html_leaves.specs.Prints.{LaysOut, KeepsEnding};

use crate::page::Page;
use std::alloc::{AllocError, Allocator};
use text_pieces::Piece;

impl<A: Allocator + Clone> Page<A> {
    /// Prints indented code (CommonMark 4.4).
    pub fn indented_code(&mut self, lines: &[Piece<'_>]) -> Result<(), AllocError>
        ensures default { KeepsEnding self.old self.new }
        ensures printed { (d : Document) → let code = IndentedCode (own_lines (piece_lines lines.now)) in
            OnOk result (LaysOut d.options.compile self.old self.new (leaf_bytes d on_page false code)) }
    {
        self.fresh_tag("<pre><code>")?;
        self.code(lines)?;
        self.fresh_tag("</code></pre>")
    }
}
