//! Headings of both kinds (CommonMark 4.2 and 4.3).
ghost use Rattle.std.specs.Prelude.{◌≡◌, [], OnOk, false, true};
ghost use Rattle.definition_block.specs.Tree.{Heading};
ghost use Rattle.definition_inline.specs.Targets.{Targets};
ghost use Rattle.definition_text.specs.BlockLines.{own_lines};
ghost use Rattle.inline_content.specs.Lines.{AreContentLines};
ghost use Rattle.text_pieces.specs.Pieces.{piece_lines};
ghost use Rattle.parse_output.specs.Children.{holds_blocks};
ghost use Rattle.parse_lines.specs.Open.{still_open};
ghost use Rattle.parse_leaves.specs.Texts.{KnowsTargets, reading_by};
ghost use Rattle.parse_raw.specs.Reads.{WritesReadLeaf};

use crate::buffers::Buffers;
use crate::heading_atx::push_heading;
use crate::heading_setext::push_setext_heading;
use block_starts::heading_atx::heading_atx;
use markdown_options::Tables;
use parse_lines::Walk;
use parse_raw::Texts;
use std::alloc::{AllocError, Allocator};
use text_pieces::Piece;

/// A heading of a rank and of these lines. The line that is begun tells its kind: one that is an ATX
/// heading is nothing else (CommonMark 4.2).
pub fn push_any_heading<'a, T: Tables, A: Allocator + Clone>(
    walk: &mut Walk<'_, A>,
    texts: &Texts<'a, '_, T, A>,
    buffers: &mut Buffers<'a, A>,
    rank: u8,
    lines: &[Piece<'a>],
) -> Result<(), AllocError>
    requires blocks { holds_blocks (still_open walk.old) ≡ true }
    ensures open { OnOk result (still_open walk.new ≡ still_open walk.old) }
    ensures written { OnOk result ((ds : Targets) → KnowsTargets texts.now ds → AreContentLines (piece_lines lines.now) →
        WritesReadLeaf (reading_by T.Tables texts.now ds) false (Heading rank (own_lines (piece_lines lines.now))) [] walk.old walk.new) }
{
    let Some(_) = heading_atx(walk.on, walk.rest) else {
        return push_setext_heading(walk, texts, buffers, lines);
    };
    match lines {
        [line, ..] => push_heading(walk, texts, buffers, rank, line),
        [] => Ok(()),
    }
}
