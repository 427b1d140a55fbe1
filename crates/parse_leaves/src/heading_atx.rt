//! ATX headings (CommonMark 4.2).
//!
//!     heading ::= '#'{1,6} white* text? white* '#'* white*
ghost use Rattle.std.specs.Prelude.{◌≡◌, ◌++◌, ◌∷◌, [], IfOk, List, OnOk, Option, drop, false, take, true, ℕ};
ghost use Rattle.std.specs.List.{list_any};
ghost use Rattle.markdown_options.specs.declared.line_ending.LineEnding.{LineEnding};
ghost use Rattle.definition_inline.specs.Targets.{Targets};
ghost use Rattle.definition_page.specs.Read.{read_text};
ghost use Rattle.definition_text.specs.BlockLines.{own_lines};
ghost use Rattle.definition_text.specs.Columns.{indent, is_tab_column};
ghost use Rattle.text_pieces.specs.ParagraphLines.{HaveNoEnding};
ghost use Rattle.text_pieces.specs.Pieces.{piece_line};
ghost use Rattle.engine_events.specs.declared.event.Name.TheVariants.{HeadingAtxSequence, HeadingAtxText, SpaceOrTab};
ghost use Rattle.parse_output.specs.Children.{holds_blocks, may_enter};
ghost use Rattle.parse_laid.specs.Places.{LineRest};
ghost use Rattle.parse_lines.specs.Ends.{written_to};
ghost use Rattle.parse_lines.specs.Open.{still_open};
ghost use Rattle.parse_leaves.specs.Atx.{EndsHeading, WritesClosing, WritesHeadingText};
ghost use Rattle.parse_raw.specs.Before.{IsOnLine, WritesOnLine, tokens};
ghost use Rattle.parse_leaves.specs.Headings.{WritesAtxHeading};
ghost use Rattle.parse_leaves.specs.Texts.{KnowsTargets, reading_by};

use crate::buffers::Buffers;
use crate::text::push_text_in;
use engine_events::event::Name;
use markdown_options::{Kind, Tables};
use parse_lines::Walk;
use parse_lines::cut::bytes_from;
use parse_raw::Texts;
use std::alloc::{AllocError, Allocator};
use std::slice::from_ref;
use text_bytes::{run, white_size};
use text_pieces::Piece;

/// An ATX heading of a rank, whose content is this piece of the line.
#[tactic(auto, using(parse_output::proofs::Classes::blocks_may, parse_output::proofs::Classes::enters_in), unfolding(parse_output::specs::Children::may_hold))]
pub fn push_heading<'a, T: Tables, A: Allocator + Clone>(
    walk: &mut Walk<'_, A>,
    texts: &Texts<'a, '_, T, A>,
    buffers: &mut Buffers<'a, A>,
    rank: u8,
    content: &Piece<'a>,
) -> Result<(), AllocError>
    requires blocks { holds_blocks (still_open walk.old) ≡ true }
    ensures open { OnOk result (still_open walk.new ≡ still_open walk.old) }
    ensures written { OnOk result ((ds : Targets) → KnowsTargets texts.now ds → HaveNoEnding (piece_line content.now).codes →
        WritesAtxHeading (reading_by T.Tables texts.now ds) rank (own_lines (piece_line content.now ∷ [])) walk.old walk.new) }
{
    let bytes = walk.white()?.as_bytes();
    let size = usize::from(rank);
    walk.enter(Name::HeadingAtx)?;
    walk.token(Name::HeadingAtxSequence, size)?;
    let text = push_white(walk, bytes_from(bytes, size))?;
    push_heading_text(walk, texts, buffers, content)?;
    push_closing(walk, bytes_from(text, content.text.len()))?;
    walk.exit(Name::HeadingAtx)
}

/// The text, which comes next, if there is one.
#[tactic(auto, unfolding(parse_output::specs::Children::may_hold, parse_output::specs::Children::has_text))]
fn push_heading_text<'a, T: Tables, A: Allocator + Clone>(
    walk: &mut Walk<'_, A>,
    texts: &Texts<'a, '_, T, A>,
    buffers: &mut Buffers<'a, A>,
    content: &Piece<'a>,
) -> Result<(), AllocError>
    requires child { may_enter (still_open walk.old) HeadingAtxText ≡ true }
    ensures open { OnOk result (still_open walk.new ≡ still_open walk.old) }
    ensures written { OnOk result ((ds : Targets) (text behind : List ℕ) (ending : Option LineEnding) (left : List LineRest) → KnowsTargets texts.now ds →
        content.now.owed ≡ 0 → list_any is_tab_column content.now.text.now ≡ false → HaveNoEnding (piece_line content.now).codes →
        IsOnLine text ending left (content.now.text.now ++ behind) walk.old →
        let r = reading_by T.Tables texts.now ds in
        WritesHeadingText r.parse.constructs r.tables.names text (read_text r (own_lines (piece_line content.now ∷ []))) ending left behind walk.old walk.new) }
{
    if content.text.is_empty() {
        return Ok(());
    }
    walk.begin_here();
    push_text_in(
        walk,
        texts,
        buffers,
        Name::HeadingAtxText,
        from_ref(content),
        Kind::Whitespace,
    )
}

/// What follows the text: white space, and the closing sequence, if there is one.
fn push_closing<A: Allocator>(walk: &mut Walk<'_, A>, bytes: &[u8]) -> Result<(), AllocError>
    requires space { may_enter (still_open walk.old) SpaceOrTab ≡ true }
    requires child { may_enter (still_open walk.old) HeadingAtxSequence ≡ true }
    ensures open { OnOk result (still_open walk.new ≡ still_open walk.old) }
    ensures written { OnOk result ((text : List ℕ) (ending : Option LineEnding) (left : List LineRest) → EndsHeading bytes.now
        → IsOnLine text ending left bytes.now walk.old → WritesClosing text ending left walk.old walk.new) }
{
    let closing = push_white(walk, bytes)?;
    walk.token(Name::HeadingAtxSequence, run(b'#', closing))?;
    walk.all(Name::SpaceOrTab)
}

/// The spaces and tabs that bytes begin with, which come next. Answers what follows them.
fn push_white<'b, A: Allocator>(
    walk: &mut Walk<'_, A>,
    bytes: &'b [u8],
) -> Result<&'b [u8], AllocError>
    requires space { may_enter (still_open walk.old) SpaceOrTab ≡ true }
    ensures open { OnOk result (still_open walk.new ≡ still_open walk.old) }
    ensures rest { IfOk result (λ rest. rest.now ≡ drop (indent bytes.now) bytes.now) }
    ensures written { OnOk result ((text : List ℕ) (ending : Option LineEnding) (left : List LineRest) → IsOnLine text ending left bytes.now walk.old →
        WritesOnLine text ending left (tokens text SpaceOrTab (written_to walk.old).index (take (indent bytes.now) bytes.now))
        (drop (indent bytes.now) bytes.now) walk.old walk.new) }
{
    let size = white_size(bytes);
    walk.token(Name::SpaceOrTab, size)?;
    Ok(bytes_from(bytes, size))
}
