//! Paragraphs (CommonMark 4.8).
ghost use Rattle.std.specs.Prelude.{◌≡◌, [], OnOk, true};
ghost use Rattle.definition_block.specs.Tree.{Paragraph as ParagraphOf};
ghost use Rattle.definition_inline.specs.Targets.{Targets};
ghost use Rattle.definition_text.specs.BlockLines.{own_lines};
ghost use Rattle.text_pieces.specs.ParagraphLines.{AreLines};
ghost use Rattle.text_pieces.specs.Pieces.{piece_lines, whole_lines};
ghost use Rattle.parse_output.specs.Children.{holds_blocks};
ghost use Rattle.parse_lines.specs.Open.{still_open};
ghost use Rattle.parse_leaves.specs.Texts.{KnowsTargets, reading_by};
ghost use Rattle.parse_raw.specs.Reads.{WritesReadLeaf};

use crate::buffers::Buffers;
use crate::text::{enter_text, push_content, push_text};
use engine_events::event::Name;
use inline_content::whole_content;
use markdown_options::{Kind, Tables};
use parse_lines::Walk;
use parse_raw::Texts;
use std::alloc::{AllocError, Allocator};
use text_pieces::Piece;

/// A paragraph of these lines. The first block of an item may begin with a check (GFM 5.3).
#[tactic(auto, using(parse_output::proofs::Classes::blocks_may, parse_output::proofs::Classes::text_in), unfolding(parse_output::specs::Children::may_hold, parse_output::specs::Children::has_text))]
pub fn push_paragraph<'a, T: Tables, A: Allocator + Clone>(
    walk: &mut Walk<'_, A>,
    texts: &Texts<'a, '_, T, A>,
    buffers: &mut Buffers<'a, A>,
    first: bool,
    lines: &[Piece<'a>],
) -> Result<(), AllocError>
    requires blocks { holds_blocks (still_open walk.old) ≡ true }
    ensures open { OnOk result (still_open walk.new ≡ still_open walk.old) }
    ensures written { OnOk result ((ds : Targets) → KnowsTargets texts.now ds → AreLines (piece_lines lines.now) →
        WritesReadLeaf (reading_by T.Tables texts.now ds) first (ParagraphOf (own_lines (piece_lines lines.now))) [] walk.old walk.new) }
{
    enter_text(walk, Name::Paragraph)?;
    push_text(walk, texts, buffers, first, lines, Kind::Whitespace)?;
    walk.exit(Name::Paragraph)
}

/// A paragraph of the lines of a text. The first block of an item may begin with a check (GFM 5.3).
#[tactic(auto, using(parse_output::proofs::Classes::blocks_may, parse_output::proofs::Classes::text_in), unfolding(parse_output::specs::Children::may_hold, parse_output::specs::Children::has_text))]
pub fn push_whole_paragraph<'a, T: Tables, A: Allocator + Clone>(
    walk: &mut Walk<'_, A>,
    texts: &Texts<'a, '_, T, A>,
    buffers: &mut Buffers<'a, A>,
    first: bool,
    text: &'a str,
) -> Result<(), AllocError>
    requires blocks { holds_blocks (still_open walk.old) ≡ true }
    ensures open { OnOk result (still_open walk.new ≡ still_open walk.old) }
    ensures written { OnOk result ((ds : Targets) → KnowsTargets texts.now ds →
        WritesReadLeaf (reading_by T.Tables texts.now ds) first (ParagraphOf (own_lines (whole_lines text.now))) [] walk.old walk.new) }
{
    enter_text(walk, Name::Paragraph)?;
    push_content(walk, texts, buffers, first, whole_content(text))?;
    walk.exit(Name::Paragraph)
}
