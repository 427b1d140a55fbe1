//! HTML blocks (CommonMark 4.6).
//!
//!     start ::= small_indent start_of_a_kind
//!     end   ::= a line that holds the end of the kind, or nothing before a blank line

use crate::parser::Parser;
use block_leaves::html_flow::html_stops;
use block_starts::Cursor;
use block_starts::html_flow::HtmlKind;
use markdown_options::{Beside, Constructs};
use std::alloc::{AllocError, Allocator};

impl<'a, A: Allocator> Parser<'a, A> {
    ghost use Rattle.std.specs.Prelude.{OnOk, List};
    ghost use Rattle.block_starts.specs.HtmlFlow.{number_of};
    ghost use Rattle.definition_text.specs.BlockLines.{BlockLine};
    ghost use Rattle.definition_block.specs.Tree as tree;
    ghost use Rattle.block_leaves.specs.View.{leaf_grown};
    ghost use Rattle.block_parser.specs.View.{Becomes};
    ghost use Rattle.block_starts.specs.View.{rest_of};

    /// An HTML block takes every line up to its end, which may come before a blank one.
    pub(crate) fn html_line(
        &mut self,
        on: &Constructs,
        kind: HtmlKind,
        rest: &Cursor<'a>,
        beside: Beside,
    ) -> Result<(), AllocError>
        ensures { OnOk result ((ls : List BlockLine) → let leaf = tree.OpenHtml (number_of kind) ls in
            Becomes self.old self.new leaf (leaf_grown on.now beside (rest_of rest.now) (tree.At leaf))) }
    {
        if html_stops(kind, rest) {
            let depth = self.open.len();
            return self.start_line(on, depth, rest, beside);
        }
        self.leaves.html_with(kind, rest, beside)
    }
}
