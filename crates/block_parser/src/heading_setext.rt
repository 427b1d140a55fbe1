//! Setext headings (CommonMark 4.3).
//!
//!     setext ::= paragraph underline, where the underline is in all containers of the paragraph

use crate::parser::Parser;
use block_starts::Cursor;
use block_starts::heading_setext::underline;
use markdown_options::Constructs;
use std::alloc::{AllocError, Allocator};

impl<'a, A: Allocator> Parser<'a, A> {
    ghost use Rattle.std.specs.Prelude.{◌≡◌, IfOk, List, Option, ℕ, Some, length};
    ghost use Rattle.markdown_options.specs.declared.line_ending.LineEnding.{LineEnding};
    ghost use Rattle.definition_block.specs.Tree as tree;
    ghost use Rattle.text_pieces.specs.ParagraphLines.{AreLines};
    ghost use Rattle.block_leaves.specs.HeadingSetext.{IsText, heading_tree};
    ghost use Rattle.block_state.specs.Spine.{Level, Spine, spine_at};
    ghost use Rattle.block_parser.specs.View.{HasRead};
    ghost use Rattle.block_starts.specs.View.{rest_of};

    /// The rank of the heading that an underline makes of what is left of the open paragraph after
    /// its definitions, where the line is in so many containers, which are all of them.
    pub(crate) fn turns(
        &mut self,
        on: &Constructs,
        depth: usize,
        rest: &Cursor<'a>,
    ) -> Result<Option<u8>, AllocError>
        ensures turned { IfOk result (λ rank. (around : List Level) (kids : tree.Blocks) (away : tree.Opening) (ending : Option LineEnding) →
            depth ≡ length around → AreLines (tree.open_text away) → HasRead self.old (spine_at around kids away) →
            tree.turns on.now away (rest_of rest.now) ending ≡ heading_tree on.now rank away ending) }
        ensures here { IfOk result (λ found. (rank : ℕ) (around : List Level) (kids : tree.Blocks) (away : tree.Opening) → depth ≡ length around →
            HasRead self.old (spine_at around kids away) → found ≡ Some rank → IsText away) }
        ensures kept { (s : Spine) → HasRead self.old s → HasRead self.new s }
        ensures containers { self.new.open ≡ self.old.open }
    {
        if !self.interrupts(depth) {
            return Ok(None);
        }
        let Some(rank) = underline(on, *rest) else {
            return Ok(None);
        };
        if self.leaves.leaves_text(on)? {
            Ok(Some(rank))
        } else {
            Ok(None)
        }
    }
}
