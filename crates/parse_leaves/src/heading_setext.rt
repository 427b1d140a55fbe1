//! Setext headings (CommonMark 4.3).
//!
//!     heading ::= line+ ('='+ | '-'+) white*
ghost use Rattle.std.specs.Prelude.{◌≡◌, ◌<◌, List, OnOk, length, true, ℕ};
ghost use Rattle.definition_inline.specs.Targets.{Targets};
ghost use Rattle.definition_text.specs.BlockLines.{own_lines};
ghost use Rattle.inline_content.specs.Lines.{AreContentLines};
ghost use Rattle.text_pieces.specs.Pieces.{piece_lines};
ghost use Rattle.engine_events.specs.declared.event.Name.TheVariants.{HeadingSetextUnderline, SpaceOrTab};
ghost use Rattle.parse_output.specs.Children.{holds_blocks, may_enter};
ghost use Rattle.parse_output.specs.Written.{IsInOrder};
ghost use Rattle.definition_text.specs.Columns.{bare, bytes_of};
ghost use Rattle.parse_laid.specs.Places.{LineRest, Within};
ghost use Rattle.parse_lines.specs.Ends.{IsWrittenToRest};
ghost use Rattle.parse_lines.specs.Open.{still_open};
ghost use Rattle.parse_lines.specs.Standing.{StandsAt, standing};
ghost use Rattle.parse_leaves.specs.Entered.{AreUnderline, WritesUnderline};
ghost use Rattle.parse_leaves.specs.Headings.{WritesSetextHeading};
ghost use Rattle.parse_leaves.specs.Texts.{KnowsTargets, reading_by};

use crate::buffers::Buffers;
use crate::text::{enter_text, push_text_in};
use engine_events::event::Name;
use markdown_options::{Kind, Tables};
use parse_lines::Walk;
use parse_lines::cut::first;
use parse_raw::Texts;
use std::alloc::{AllocError, Allocator};
use text_bytes::run;
use text_pieces::Piece;

/// A heading of these lines, with the underline on the line after them.
#[tactic(auto, using(parse_output::proofs::Classes::headings), unfolding(parse_output::specs::Children::may_hold, parse_output::specs::Children::has_lines, parse_output::specs::Children::has_text))]
pub fn push_setext_heading<'a, T: Tables, A: Allocator + Clone>(
    walk: &mut Walk<'_, A>,
    texts: &Texts<'a, '_, T, A>,
    buffers: &mut Buffers<'a, A>,
    lines: &[Piece<'a>],
) -> Result<(), AllocError>
    requires blocks { holds_blocks (still_open walk.old) ≡ true }
    ensures open { OnOk result (still_open walk.new ≡ still_open walk.old) }
    ensures written { OnOk result ((ds : Targets) (rank : ℕ) → KnowsTargets texts.now ds → AreContentLines (piece_lines lines.now) →
        WritesSetextHeading (reading_by T.Tables texts.now ds) rank (own_lines (piece_lines lines.now)) walk.old walk.new) }
{
    enter_text(walk, Name::HeadingSetext)?;
    push_text_in(
        walk,
        texts,
        buffers,
        Name::HeadingSetextText,
        lines,
        Kind::Whitespace,
    )?;
    walk.next_line()?;
    push_underline(walk)?;
    walk.exit(Name::HeadingSetext)
}

/// The underline: the rest of the line.
#[tactic(auto, using(parse_output::proofs::Classes::enters_in), unfolding(parse_output::specs::Children::may_hold))]
fn push_underline<A: Allocator>(walk: &mut Walk<'_, A>) -> Result<(), AllocError>
    requires child { may_enter (still_open walk.old) HeadingSetextUnderline ≡ true }
    requires space { may_enter (still_open walk.old) SpaceOrTab ≡ true }
    ensures open { OnOk result (still_open walk.new ≡ still_open walk.old) }
    ensures written { OnOk result ((text : List ℕ) (here : LineRest) (left : List LineRest) → StandsAt text (Within here left) (standing walk.old)
        → IsWrittenToRest walk.old → IsInOrder text walk.old.out → 0 < length (bytes_of (bare here.rest)) → AreUnderline (bytes_of (bare here.rest))
        → WritesUnderline text here left walk.old walk.new) }
{
    let bytes = walk.white()?.as_bytes();
    walk.enter(Name::HeadingSetextUnderline)?;
    let size = run(first(bytes), bytes);
    walk.token(Name::HeadingSetextUnderlineSequence, size)?;
    walk.all(Name::SpaceOrTab)?;
    walk.exit(Name::HeadingSetextUnderline)
}
