//! Link reference definitions (CommonMark 4.7).
ghost use Rattle.std.specs.Prelude.{◌≡◌, Bool, OnOk, true};
ghost use Rattle.block_rows.specs.Rows.{Single, definition_on, definition_value};
ghost use Rattle.definition_inline.specs.Targets.{Targets};
ghost use Rattle.definition_text.specs.BlockLines.{own_lines};
ghost use Rattle.text_pieces.specs.Pieces.{piece_lines};
ghost use Rattle.parse_output.specs.Children.{holds_blocks};
ghost use Rattle.parse_lines.specs.Open.{still_open};
ghost use Rattle.parse_leaves.specs.Rows.{WritesRow};
ghost use Rattle.parse_leaves.specs.Texts.{KnowsTargets, reading_by};

use crate::buffers::Buffers;
use engine_events::event::Name;
use markdown_options::Tables;
use parse_lines::Walk;
use parse_lines::cut::from;
use parse_raw::Texts;
use std::alloc::{AllocError, Allocator};
use text_bytes::white_size;
use text_pieces::{Piece, join_lines};

/// A link reference definition of these lines, and white space at the end of the last one.
#[tactic(auto, using(parse_output::proofs::Classes::line_blocks), unfolding(parse_output::specs::Children::may_hold, parse_output::specs::Children::has_lines))]
pub fn push_definition<'a, T: Tables, A: Allocator + Clone>(
    walk: &mut Walk<'_, A>,
    texts: &Texts<'a, '_, T, A>,
    buffers: &mut Buffers<'a, A>,
    lines: &[Piece<'a>],
) -> Result<(), AllocError>
    requires blocks { holds_blocks (still_open walk.old) ≡ true }
    ensures open { OnOk result (still_open walk.new ≡ still_open walk.old) }
    ensures written { OnOk result ((ds : Targets) (first : Bool) → KnowsTargets texts.now ds → let ls = piece_lines lines.now in
        WritesRow (reading_by T.Tables texts.now ds) first (Single (definition_value (own_lines ls) (definition_on ls))) walk.old walk.new) }
{
    join_lines(&mut buffers.joined, lines)?;
    let content = buffers.joined.as_str();
    let white = white_size(content.as_bytes());
    walk.begin_content();
    walk.text(Name::SpaceOrTab, white)?;
    walk.enter(Name::Definition)?;
    parse_links::push_definition(
        walk,
        &texts.options.constructs,
        texts.tables,
        from(content, white),
    )?;
    walk.exit(Name::Definition)?;
    let left = content.len().saturating_sub(walk.place());
    walk.text(Name::SpaceOrTab, left)
}
